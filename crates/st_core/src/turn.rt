use st_base::{Family, List, Rows};
use st_model::IngestExternalFileOptions;
use st_version::Held;
use std::marker::Model;
use std::sync::Arc;

/// One argument of a request: the family, its options, and the tables of its staged files, in order.
#[derive(Drop)]
pub struct Part<T: Rows + Drop> {
    family: Family,
    options: IngestExternalFileOptions,
    files: List<Arc<Held<T>>>,
}

impl<T: Rows + Drop> Model for Part<T> {
    ghost use Rattle.core_model.specs.Picture.{Part as PartPicture};
    ghost use Rattle.st_version.specs.Held.{tables_of};

    ghost Value = { PartPicture };

    ghost view = { λ part. record { family = part.family; options = part.options; files = tables_of part.files } };
}

/// The turn of a request: the place at which it was taken, and the request's parts.
#[derive(Drop)]
pub struct Turn<T: Rows + Drop> {
    place: u64,
    parts: List<Part<T>>,
}

impl<T: Rows + Drop> Model for Turn<T> {
    ghost use Rattle.core_model.specs.Picture.{Turn as TurnPicture};

    ghost Value = { TurnPicture };

    ghost view = { λ turn. record { place = turn.place; parts = turn.parts } };
}
