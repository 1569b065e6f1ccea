//! A law of the definitions: numbers that are written are read back as they were.
ghost use Rattle.wjs_num.specs.ReadBack.{RadixReadsBack, DecimalReadsBack};

/// What `write_radix` writes, `parse_int` reads in the same radix as the number that was written,
/// and `read_text` does so in radix 10, NaN included. It does nothing when it runs.
pub fn digits_are_read_back()
    ensures radix { RadixReadsBack }
    ensures decimal { DecimalReadsBack }
{}
