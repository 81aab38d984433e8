// Services of a dump.
ghost use Rattle.std.specs.Prelude.{◌≡◌, ◌++◌, ◌∷◌, [], OnOk};
ghost use Rattle.std.specs.List.{list_any};
ghost use Rattle.std.specs.Option.{option_copied};
ghost use Rattle.lang_base.specs.Texts.{same_text};
ghost use Rattle.dump_tables.specs.Found.{IsOneOf};

use crate::dump::DumpService;
use crate::finding::one_of;
use lang_core::{Name, NoMemory, Same};
use lang_lists::{HashIndex, text_key};
use std::alloc::Global;
use std::marker::Model;

/// Services in the order of the dump, which contracts see as a list. One is found by its name without a walk.
pub struct DumpServices {
    items: Vec<DumpService>,
    // The keys of their names.
    names: HashIndex,
}

impl Drop for DumpServices {
    fn drop(self) {
        let Self { items: _, names: _ } = self;
    }
}

impl Model for DumpServices {
    ghost use Rattle.std.specs.Prelude.{◌≡◌, List, map};
    ghost use Rattle.std.specs.Coded.{coded_list};
    ghost use Rattle.lang_lists.specs.Keys.{text_key};
    ghost use Rattle.dump_tables.specs.contracts.dump.DumpService as service;
    ghost use Rattle.dump_tables.specs.declared.dump.DumpService.{DumpService};

    ghost Value = { List DumpService };

    ghost coded = { coded_list service.the_row.coded };

    ghost view = { λ services. services.items.items };

    ghost invariant = { λ services. services.names.keys ≡ map (λ s. text_key s.setting.me) services.items.items };
}

impl DumpServices {
    /// No services.
    pub fn new(alloc: Global) -> DumpServices
        ensures { result ≡ [] }
    {
        DumpServices {
            items: Vec::new(alloc),
            names: HashIndex::new(alloc),
        }
    }

    /// The services, in order.
    pub fn as_slice(&self) -> &[DumpService]
        ensures { result.now ≡ self.now }
    {
        self.items.as_slice()
    }

    /// A service of this name, if there is one.
    pub fn named(&self, name: &Name) -> Option<&DumpService>
        ensures { IsOneOf (λ s. same_text s.setting.me name.now) self.now (option_copied result) }
    {
        let key = text_key(name.text());
        one_of(self.as_slice(), &self.names, key, |s| {
            s.setting.me.text().is(name.text())
        })
    }

    /// Whether a service has this name.
    pub fn is_named(&self, name: &Name) -> bool
        ensures { result ≡ list_any (λ s. same_text s.setting.me name.now) self.now }
    {
        match self.named(name) {
            Some(_) => true,
            None => false,
        }
    }

    /// Puts a service last. Refused, it is dropped and the list stays.
    pub fn push(&mut self, service: DumpService) -> Result<(), NoMemory>
        ensures { OnOk result (self.new ≡ self.old ++ service ∷ []) }
    {
        self.names.reserve(1)?;
        self.items.reserve(1)?;
        self.names.push(text_key(service.setting.me.text()));
        self.items.push_reserved(service);
        Ok(())
    }
}
