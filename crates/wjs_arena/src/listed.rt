//! The attributes that an object lists.
ghost use Rattle.std.specs.Prelude.{◌≡◌, [], IfSome, IsTrue};
ghost use Rattle.wjs_arena.specs.AtName.{at_name};
ghost use Rattle.wjs_arena.specs.Hidden.{hidden_all, hidden_list};

use crate::hidden::{Hidden, short_text};
use crate::object::Flags;
use crate::under::Under;
use std::alloc::Global;
use std::marker::Model;
use wjs_base::Name;

/// A finished list of names with their attributes. Contracts see the list.
///
/// That of an Arguments object follows from the number of its values, and takes no memory.
#[derive(Drop)]
pub struct Listed {
    form: Form,
}

/// How a list is kept.
#[derive(Drop)]
pub(crate) enum Form {
    Names(Under<Flags>),
    Hidden(Hidden),
}

impl Model for Listed {
    ghost use Rattle.std.specs.Prelude.{List};
    ghost use Rattle.wjs_base.specs.declared.values.Name.{Name};
    ghost use Rattle.wjs_arena.specs.declared.object.Flags.{Flags};

    ghost Value = { List (Name × Flags) };

    ghost use Rattle.wjs_arena.specs.Listed.{names_in};

    ghost view = { λ l. names_in l.form };
}

impl Listed {
    /// Nothing under any name.
    pub fn new(alloc: Global) -> Listed
        ensures { result ≡ [] }
    {
        Listed {
            form: Form::Names(Under::new(alloc)),
        }
    }

    /// The entries of the vector, with no memory taken.
    pub fn from_vec(items: Vec<(Name, Flags)>) -> Listed
        ensures { result ≡ items.items }
    {
        Listed {
            form: Form::Names(Under::from_vec(items)),
        }
    }

    /// Two texts and the indices below a count, all of them hidden, as an Arguments object lists them. None is only where the
    /// list has to be written out: where a name is an index, or its number is great.
    pub fn of_arguments(callee: Name, length: Name, count: u32) -> Option<Listed>
        ensures { IfSome result (λ listed. listed ≡ hidden_all callee length count) }
    {
        match short_text(callee) {
            None => None,
            Some(first) => match short_text(length) {
                None => None,
                Some(second) => Some(Listed {
                    form: Form::Hidden(Hidden {
                        count,
                        callee: first,
                        length: second,
                    }),
                }),
            },
        }
    }

    /// What stands under a name: the first entry of it; None exactly where there is none.
    pub fn get(&self, name: Name) -> Option<Flags>
        ensures { result ≡ at_name self.now name }
    {
        match &self.form {
            Form::Names(names) => names.get(name),
            Form::Hidden(hidden) => hidden.get(name),
        }
    }

    /// Whether there are no entries.
    pub(crate) fn is_empty(&self) -> bool
        ensures { IsTrue result → self.now ≡ [] }
    {
        match &self.form {
            Form::Names(names) => names.is_empty(),
            Form::Hidden(_) => false,
        }
    }

    /// The list in short, where it is kept so.
    pub(crate) fn hidden(&self) -> Option<Hidden>
        ensures { IfSome result (λ hidden. self.now ≡ hidden_list hidden) }
    {
        match &self.form {
            Form::Names(_) => None,
            Form::Hidden(hidden) => Some(*hidden),
        }
    }
}
