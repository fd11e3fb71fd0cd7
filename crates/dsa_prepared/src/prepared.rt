//! Prepared submissions.

ghost use Rattle.std.specs.Prelude.{◌≡◌, ◌+◌, ◌*◌, length, IfOk};
ghost use Rattle.dsa_prepared.specs.Rows.{ArePrepared, rows_of, template_in};

use crate::parts::Parts;
use crate::reading::{header_word, portal_rows, staging_rows};
use crate::row::Row;
use crate::writing::rows_of;
use std::alloc::{AllocError, Global};
use std::marker::Model;

/// A planned submission, with each address as a region and an offset in it. Contracts see it as a `Template`.
#[derive(Drop)]
pub struct Prepared {
    rows: Vec<Row>,
}

impl Model for Prepared {
    ghost use Rattle.std.specs.Prelude.{◌≡◌};
    ghost use Rattle.dsa_prepared.specs.Templates.{Template};
    ghost use Rattle.dsa_prepared.specs.Rows.{ArePrepared, rows_of, template_in};

    ghost Value = { Template };

    ghost view = { λ p. template_in p.rows.items };

    ghost invariant = { λ p. ArePrepared p.rows.items
        × (p.rows.items ≡ rows_of (template_in p.rows.items)) };
}

impl Prepared {
    /// The submission of these parts.
    pub(crate) fn of(alloc: Global, parts: &Parts) -> Result<Prepared, AllocError>
        ensures { IfOk result (λ p. p ≡ parts.now) }
    {
        let rows = rows_of(alloc, parts)?;
        Ok(Prepared { rows })
    }

    /// Its rows, which can be copied, shared and kept: [`fill_rows`] fills from them, too.
    pub fn as_rows(&self) -> &[Row]
        ensures value { result.now ≡ rows_of self.now }
        ensures read { template_in result.now ≡ self.now }
        ensures prepared { ArePrepared result.now }
    {
        &self.rows
    }

    /// How many pieces the list has.
    pub fn piece_count(&self) -> usize
        ensures { result ≡ self.now.pieces }
    {
        header_word(&self.rows, 6)
    }

    /// The bytes that filling writes to the portal, 64 for each group of the plan.
    pub fn portal_len(&self) -> usize
        ensures { result ≡ 64 * length self.now.portal }
    {
        64 * portal_rows(&self.rows).len()
    }

    /// The bytes that filling writes to the staging area: 64 for each piece in a batch, and 32 for each batch.
    pub fn staging_len(&self) -> usize
        ensures { result ≡ 64 * length self.now.staging + 32 * self.now.batches }
    {
        64 * staging_rows(&self.rows).len() + 32 * header_word(&self.rows, 5)
    }
}
