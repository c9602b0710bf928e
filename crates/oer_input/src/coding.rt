//! How octets are written.

/// How octets are written.
#[derive(Clone, Copy, Debug, PartialEq, Eq)]
pub enum Coding {
    /// As they are.
    Raw,
    /// In pairs of hexadecimal digits, upper or lower case. Between octets white space, `:`, `-` and `,` may stand in any
    /// number. `0x` or `0X` may stand before an octet where the text begins or one of these stands before it.
    Hex,
    /// In base64 (RFC 4648), in the alphabet of its section 4 or 5, or in both. White space is passed over. Padding may be
    /// missing.
    Base64,
}
