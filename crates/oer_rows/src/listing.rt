//! What octets are, row by row.
ghost use Rattle.std.specs.Prelude.{◌≡◌, IfOk};
ghost use Rattle.std.specs.List.{FoldsTo};
ghost use Rattle.oer_types.specs.Schema.{the_type};
ghost use Rattle.oer_checker.specs.Check.{Answers, Finds, IsOfOctets, Tells};
ghost use Rattle.oer_rows.specs.Listing.{AreListed, Covers, rows_of};
ghost use Rattle.oer_rows.specs.Rows.{lines_of};

use crate::keep::Kept;
use crate::row::{Halt, Listing, Stopped};
use crate::spot::Spot;
use crate::taker::TakeRow;
use crate::trace::list_shape;
use oer_checker::readers::Cursor;
use oer_checker::{Verdict, check};
use oer_types::Schema;
use oer_units::ReadFault;
use std::alloc::{AllocError, Global};

/// Hands over what the octets of the encoding at the front are, row by row: each octet stands in one row,
/// and the rows come in the order of the octets, those that [`rows`] returns. Nothing is kept of them. It
/// returns what [`check`](oer_checker::check) returns for the octets; where they are rejected, there are
/// rows up to the unit that can't be read. It fails if an allocation fails, for a path, or if a row isn't
/// taken; some rows may be taken then.
pub fn each_row<T: TakeRow>(
    alloc: Global,
    schema: &Schema,
    octets: &[u8],
    taker: &mut T,
) -> Result<Result<Verdict, ReadFault>, Stopped>
    // The verdict says what that of `check` says.
    ensures told { IfOk result (λ v. Tells (the_type schema.now) octets.now v) }
    ensures comes { IfOk result (λ v. Finds (the_type schema.now) octets.now v) }
    ensures exact { IfOk result (λ v. Answers (the_type schema.now) octets.now v) }
    ensures plain { IfOk result (λ v. IsOfOctets v) }
    // The rows are those of the encoding, in the terms of the encoding rules.
    ensures listed { IfOk result (λ v. AreListed (the_type schema.now) octets.now (rows_of (the_type schema.now) octets.now) v) }
    // The rows cover the encoding, or octets in front of what is rejected, in order.
    ensures covers { IfOk result (λ v. Covers octets.now (rows_of (the_type schema.now) octets.now) v) }
    // It took these rows, one after another.
    ensures rows { IfOk result (λ _. FoldsTo T.takes taker.old (rows_of (the_type schema.now) octets.now) taker.new) }
{
    let verdict = check(schema, octets);
    let cursor = Cursor {
        rest: octets,
        left: u64::MAX,
    };
    let spot = Spot {
        alloc,
        total: octets.len(),
        path: Vec::new(alloc),
    };
    match list_shape(&spot, schema.shape(), cursor, taker) {
        Ok(_) => Ok(verdict),
        Err(Halt::Refused) => Ok(verdict),
        Err(Halt::Stopped(stopped)) => Err(stopped),
    }
}

/// What the octets of the encoding at the front are, row by row: each octet stands in one row, and the
/// rows are in the order of the octets. What follows the encoding has no row. The path of each row leads
/// to a part of the encoding, and the rows of a part stand together and have just its octets
/// ([`naming_parts`](crate::laws::naming_parts)). Where the octets are rejected, there are rows up to the
/// unit that can't be read. It fails if an allocation fails.
pub fn rows<'a>(alloc: Global, schema: &Schema, octets: &'a [u8]) -> Result<Listing<'a>, AllocError>
    // The verdict says what that of `check` says.
    ensures told { IfOk result (λ l. Tells (the_type schema.now) octets.now l.verdict) }
    ensures comes { IfOk result (λ l. Finds (the_type schema.now) octets.now l.verdict) }
    ensures exact { IfOk result (λ l. Answers (the_type schema.now) octets.now l.verdict) }
    ensures plain { IfOk result (λ l. IsOfOctets l.verdict) }
    // The rows are those of the encoding, in the terms of the encoding rules.
    ensures listed { IfOk result (λ l. AreListed (the_type schema.now) octets.now (lines_of l.rows.items) l.verdict) }
    // The rows cover the encoding, or octets in front of what is rejected, in order.
    ensures covers { IfOk result (λ l. Covers octets.now (lines_of l.rows.items) l.verdict) }
    // Which rows there are.
    ensures rows { IfOk result (λ l. lines_of l.rows.items ≡ rows_of (the_type schema.now) octets.now) }
{
    let mut kept = Kept {
        alloc,
        octets,
        rows: Vec::new(alloc),
    };
    let Ok(verdict) = each_row(alloc, schema, octets, &mut kept) else {
        return Err(AllocError);
    };
    Ok(Listing {
        verdict,
        rows: kept.rows,
    })
}
