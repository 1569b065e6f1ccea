//! Laws of the machine of worlds, each the contract of a function that does nothing.
ghost use Rattle.wjs_store.specs.Laws.{BelowIsByPath, ReachedStays, RefusedChangesNothing, LooksKeepContents, WritesSetContents, SproutsCopyContents};
ghost use Rattle.wjs_store.specs.Laws.{CommitsMoveContents, CommitsMoveMarks, OwnViewHolds};

/// The worlds that a write reaches are those from which a path of parents leads up to the world that is written in, on
/// which every world, the last left out, is untouched at the slot.
pub fn write_reaches_by_path()
    ensures { BelowIsByPath }
{}

/// The facts of every reached state hold of the fresh state, and each action keeps them: an untouched slot has the
/// parent's content, a slot that is read and not written has the content that was read, a slot of a listed object that
/// is neither read nor written is absent, the world without parent has no marks, and parents are older.
pub fn reached_states_stay_reached()
    ensures { ReachedStays }
{}

/// A commit that answers Disagrees or NoParent changes no slot and no mark of any world.
pub fn refused_commit_changes_nothing()
    ensures { RefusedChangesNothing }
{}

/// A read and a listing change no content of any world.
pub fn looks_keep_contents()
    ensures { LooksKeepContents }
{}

/// A write sets its slot in its world and in the worlds below, and changes no other content of any world.
pub fn writes_set_contents()
    ensures { WritesSetContents }
{}

/// A child has its parent's contents, and the other worlds keep theirs.
pub fn sprouts_copy_contents()
    ensures { SproutsCopyContents }
{}

/// What a commit that answers Moved leaves of the contents.
///
/// Where a slot is written in the world, its content there is afterwards the content in the parent, and in each world
/// from which, as things stood before the commit, a path of parents leads up to the parent through worlds in which the
/// slot is untouched. Every other content of every world is what it was; the committed world keeps all of its own.
pub fn commits_move_contents()
    ensures { CommitsMoveContents }
{}

/// What a commit that answers Moved leaves of the marks.
///
/// The committed world has none. A parent that has itself a parent gets its written slots and its listed objects, and a
/// recorded read of what it held at each slot that it had neither read nor written, where the committed world had read
/// the slot and the parent had not listed its object, or had written it and the parent had listed its object or is
/// strict. The first world gets no marks. Every other world keeps its marks; which worlds there are, their parents and
/// which of them are strict stays.
pub fn commits_move_marks()
    ensures { CommitsMoveMarks }
{}

/// What a store promises of an action under every view that it admits afterwards holds under its own view.
pub fn own_view_holds()
    ensures { OwnViewHolds }
{}
