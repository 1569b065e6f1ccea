//! The text for three numbers.

use super::*;
use std::test::Fail;

const REST: &[u8] =
    b", o = {}, ws = [], moved = 0, refused = 0, sum = 0, i;\nfunction change(w, k) { in w { o[k] = o[k] + 7; if (k % 5 == 4) o[k - 1]; } }\nfor (i = 0; i < n; i++) o[i] = i;\nfor (i = 0; i < n; i++) ws[i] = thisWorld.sprout();\nfor (i = 0; i < n; i++) change(ws[i], i);\nfor (i = 0; i < n; i++) { try { ws[i].commit(); moved++; } catch (e) { refused++; } }\nfor (i = 0; i < n; i++) sum += o[i];\nprint(\"moved \" + moved + \" refused \" + refused + \" sum \" + sum);\n";

#[test]
fn the_number_stands_in_its_place(rt: HostRuntime) -> Result<(), Fail> {
    for (number, start) in [
        (1, b"var n = 1".as_slice()),
        (1000, b"var n = 1000".as_slice()),
        (50000, b"var n = 50000".as_slice()),
    ] {
        let script = script_of(rt.alloc(), number)?;
        let mut expected = Vec::new(rt.alloc());
        expected.extend_from_slice(start)?;
        expected.extend_from_slice(REST)?;
        assert_eq!(rt; script, expected);
    }
    Ok(())
}
