//! The parts of a prepared submission, as they are made.

use crate::entry::Entry;
use crate::tie::Tie;
use dsa_descriptor::Span;
use std::marker::Model;

/// The parts of a prepared submission, as they are made. Contracts see them as a `Template`.
#[derive(Drop)]
pub(crate) struct Parts {
    pub(crate) regions: Vec<Span>,
    pub(crate) units: Vec<u64>,
    pub(crate) ties: Vec<Tie>,
    pub(crate) portal: Vec<Entry>,
    pub(crate) staging: Vec<Entry>,
    pub(crate) batches: usize,
    pub(crate) pieces: usize,
}

impl Model for Parts {
    ghost use Rattle.dsa_prepared.specs.Templates.{Template, template};
    ghost use Rattle.dsa_prepared.specs.Sound.{IsSound};

    ghost Value = { Template };

    ghost view = { λ p. template p.regions.items p.units.items p.ties.items
        p.portal.items p.staging.items p.batches p.pieces };

    ghost invariant = { λ p. IsSound (template p.regions.items p.units.items p.ties.items
        p.portal.items p.staging.items p.batches p.pieces) };
}
