//! Names, each once.
ghost use Rattle.std.specs.Prelude.{◌≡◌, [], not, IfOk, OnOk};
ghost use Rattle.wjs_scope.specs.Declarations.{with_name, with_names};
ghost use Rattle.wjs_scope.specs.Scopes.{is_in, none_of, some_name};

use indexmap::IndexSet;
use std::alloc::Global;
use std::marker::Model;
use wjs_base::{OutOfMemory, TextId};
use wjs_tree::Sequence;

/// Different names in the order in which they came, among which one is found by one look. Contracts see the list.
#[derive(Drop)]
pub struct NameSet {
    numbers: IndexSet<u64>,
}

impl Model for NameSet {
    ghost use Rattle.std.specs.Prelude.{List, map};
    ghost use Rattle.wjs_scope.specs.Declarations.{name_of};
    ghost use Rattle.wjs_base.specs.declared.ids.TextId.{TextId};

    ghost Value = { List TextId };

    ghost view = { λ n. map name_of n.numbers.keys };
}

impl NameSet {
    /// No names.
    pub fn new(alloc: Global) -> NameSet
        ensures { result ≡ [] }
    {
        NameSet {
            numbers: IndexSet::new(alloc),
        }
    }

    /// Puts a name last, unless it is there.
    pub fn add(&mut self, name: TextId) -> Result<(), OutOfMemory>
        ensures { OnOk result (self.new ≡ with_name self.old name) }
    {
        self.numbers.insert(name.0)?;
        Ok(())
    }

    /// Puts each name of the list last, unless it is there.
    pub fn add_all(&mut self, list: &[TextId]) -> Result<(), OutOfMemory>
        ensures { OnOk result (self.new ≡ with_names self.old list.now) }
    {
        for name in list {
            self.add(*name)?;
        }
        Ok(())
    }

    /// Puts the name, if there is one, last, unless it is there.
    pub fn add_option(&mut self, name: Option<TextId>) -> Result<(), OutOfMemory>
        ensures { OnOk result (self.new ≡ with_names self.old (some_name name)) }
    {
        match name {
            Some(x) => self.add(x),
            None => Ok(()),
        }
    }

    /// Whether a name is there.
    pub fn contains(&self, name: TextId) -> bool
        ensures { result ≡ is_in self.now name }
    {
        self.numbers.contains(&name.0)
    }

    /// Those names of the list that aren't there, in their order.
    pub(crate) fn absent(
        &self,
        alloc: Global,
        list: &[TextId],
    ) -> Result<Sequence<TextId>, OutOfMemory>
        ensures { IfOk result (λ names. names ≡ none_of self.now list.now) }
    {
        let mut names = Vec::new(alloc);
        for name in list {
            if self.lacks(*name) {
                names.push(*name)?;
            }
        }
        Ok(Sequence::from_vec(names))
    }

    fn lacks(&self, name: TextId) -> bool
        ensures { result ≡ not (is_in self.now name) }
    {
        !self.contains(name)
    }

    /// The names in their order.
    pub fn to_sequence(&self, alloc: Global) -> Result<Sequence<TextId>, OutOfMemory>
        ensures { IfOk result (λ list. list ≡ self.now) }
    {
        let mut names = Vec::new(alloc);
        for k in self.numbers.as_slice() {
            names.push(TextId(*k))?;
        }
        Ok(Sequence::from_vec(names))
    }
}
