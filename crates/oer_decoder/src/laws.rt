//! What the calls of this crate promise together. `headline` and `relaying` do nothing: the contract
//! is the law. `read_promises` and `rewrite_promises` are calls, and join the headline to them.

ghost use Rattle.oer_decoder.specs.Headline.{Headline, ReadPromises, RewritePromises, side_of};
ghost use Rattle.oer_decoder.specs.Relaying.{CanonicalKeepsUnknown, RewritingKeepsUnknown};
ghost use Rattle.oer_types.specs.Schema.{the_type};
ghost use Rattle.oer_units.specs.Reads.{seen};
ghost use Rattle.oer_values.specs.ValueView.{value_of};

use crate::fault::RewriteFault;
use crate::front::read;
use crate::rewriting::rewrite;
use oer_types::{Schema, Value, laws};
use oer_units::{ReadFault, Sink, Source};
use std::alloc::Global;

/// For every well-formed type: two values have equal canonical octets exactly where they are equal
/// after defaults are filled in; [`read`](crate::read) accepts exactly the inputs that begin with
/// a Basic-OER encoding within its limit, however cut, gives its one value and takes exactly its
/// octets; and [`rewrite`](crate::rewrite) of an accepted encoding gives that value's canonical
/// octets, which it leaves unchanged.
///
/// It speaks of runs of both, by what they promise ([`read_promises`], [`rewrite_promises`]): those in
/// which the reader and the sink tell their octets, neither failed, and no allocation failed. Where the
/// canonical octets are 2^64 or more, the answer is `TooLong`.
pub fn headline()
    ensures holds { Headline }
{}

/// It is [`read`](crate::read), and its contract is what [`headline`] assumes of a run of `read`: so
/// each run is one of which the headline speaks.
pub fn read_promises<R: Source>(
    alloc: Global,
    schema: &Schema,
    reader: &mut R,
    limit: u64,
) -> Result<Value, ReadFault>
    ensures { ReadPromises (the_type schema.now) limit (side_of (R.remaining reader.old) (R.failed reader.old))
        (side_of (R.remaining reader.new) (R.failed reader.new)) (seen value_of result) }
{
    read(alloc, schema, reader, limit)
}

/// The same of [`rewrite`](crate::rewrite).
pub fn rewrite_promises<R: Source, W: Sink>(
    alloc: Global,
    schema: &Schema,
    reader: &mut R,
    limit: u64,
    sink: &mut W,
) -> Result<(u64, u64), RewriteFault>
    ensures { RewritePromises (the_type schema.now) limit (side_of (R.remaining reader.old) (R.failed reader.old))
        (side_of (R.remaining reader.new) (R.failed reader.new)) (side_of (W.contents sink.old) (W.failed sink.old))
        (side_of (W.contents sink.new) (W.failed sink.new)) result }
{
    rewrite(alloc, schema, reader, limit, sink)
}

/// The octets of parts that the type doesn't know stand unchanged, and at the same paths, in an
/// encoding of a value and in its canonical octets, except those in a DEFAULT component that equals its
/// default, which is left out.
pub fn relaying()
    // Of an encoding of a value, and its canonical octets.
    ensures octets { CanonicalKeepsUnknown }
    // Of what `rewrite` takes, and what it appends.
    ensures runs { RewritingKeepsUnknown }
{
    laws::relaying();
}
