ghost use Rattle.std.specs.Prelude.{◌≡◌, map};
ghost use Rattle.std.specs.Option.{option_copied};
ghost use Rattle.st_base.specs.Map.{value_at};
ghost use Rattle.st_version.specs.State.{named_views};

use crate::view::FamilyView;
use st_base::{Family, List, Rows};
use st_model::Snapshot;
use std::collections::BTreeMap;
use std::marker::Model;
use std::sync::Arc;

/// What readers see of a store: its last sequence number, whether it takes files in behind, its charge, its families by
/// name, and its live snapshots, the newest last.
#[derive(Drop)]
pub struct State<T: Rows + Drop> {
    last: u64,
    behind: bool,
    charge: u64,
    families: BTreeMap<Family, Arc<FamilyView<T>>>,
    live: List<Snapshot>,
}

impl<T: Rows + Drop> Model for State<T> {
    ghost use Rattle.core_model.specs.StatePicture.{StatePicture};
    ghost use Rattle.st_version.specs.State.{named_views};

    ghost Value = { StatePicture };

    ghost view = { λ state. record {
      last = state.last;
      behind = state.behind;
      charge = state.charge;
      families = named_views state.families.entries;
      live = state.live;
    } };
}

impl<T: Rows + Drop> State<T> {
    /// The state with these parts.
    pub fn new(
        last: u64,
        behind: bool,
        charge: u64,
        families: BTreeMap<Family, Arc<FamilyView<T>>>,
        live: List<Snapshot>,
    ) -> State<T>
        ensures last { result.last ≡ last }
        ensures behind { result.behind ≡ behind }
        ensures charge { result.charge ≡ charge }
        ensures families { result.families ≡ named_views families.entries }
        ensures live { result.live ≡ live }
    {
        State {
            last,
            behind,
            charge,
            families,
            live,
        }
    }

    /// The last sequence number.
    pub fn last(&self) -> u64
        ensures { result ≡ self.now.last }
    {
        self.last
    }

    /// Whether the store takes files in behind.
    pub fn behind(&self) -> bool
        ensures { result ≡ self.now.behind }
    {
        self.behind
    }

    /// What its entries count against the capacity.
    pub fn charge(&self) -> u64
        ensures { result ≡ self.now.charge }
    {
        self.charge
    }

    /// The family of the name: None exactly where there is none.
    pub fn family(&self, name: &Family) -> Option<&FamilyView<T>>
        ensures { option_copied result ≡ value_at self.now.families name.now }
    {
        match self.families.get(name) {
            Some(family) => Some(family),
            None => None,
        }
    }

    /// The families by name.
    pub fn families(&self) -> &BTreeMap<Family, Arc<FamilyView<T>>>
        ensures { named_views result.now.entries ≡ self.now.families }
    {
        &self.families
    }

    /// The live snapshots, the newest last.
    pub fn live(&self) -> &[Snapshot]
        ensures { result.now ≡ self.now.live }
    {
        self.live.as_slice()
    }
}
