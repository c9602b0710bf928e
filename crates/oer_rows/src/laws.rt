//! Laws over the definitions. Each function does nothing; its contract is the law.
ghost use Rattle.oer_rows.specs.Naming.{NamesParts};

/// Rows name parts. The path of each row of an encoding leads to a part of it. Each path that leads to a
/// part names rows, its own and those of the parts in it: they stand together, and have just the octets of
/// the part. The length of the open type (X.696, 30) that holds the part is not among them.
pub fn naming_parts()
    ensures { NamesParts }
{}
