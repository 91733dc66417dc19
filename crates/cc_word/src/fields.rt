//! The fields of a capability word.
ghost use Rattle.std.specs.Prelude.{◌<◌, ◌^◌};

/// The fields of a capability word, without the exclusive-or with the null capability.
///
/// ```text
/// 127   124 123     112 111  110  109  108    91  90  89    78 77    64 63       0
/// +---------+-----------+--------+----+----------+----+--------+--------+----------+
/// | user    | hardware  |reserved|flag| object   | IE | T      | B      | address  |
/// | perms   | perms     |        |    | type     |    | field  | field  |          |
/// +---------+-----------+--------+----+----------+----+--------+--------+----------+
///      4         12          2     1       18      1      12       14        64
/// ```
///
/// Every value of the type has each field within its width.
///
/// Source: UCAM-CL-TR-987, the compressed capability encoding; Woodruff et al. 2019.
#[derive(Clone, Copy, PartialEq, Eq, Debug)]
pub struct Fields {
    /// The permissions, 16 bits: 4 user permissions above 12 hardware permissions.
    pub perms: u16,
    /// The reserved bits, 2 bits. They are zero in every capability of this library.
    pub reserved: u8,
    /// The flag. For CHERI-RISC-V, it says whether code runs in capability mode.
    pub flag: bool,
    /// The object type, 18 bits. 0x3ffff is unsealed.
    pub otype: u32,
    /// The internal exponent bit IE: whether the low 3 bits of `t` and of `b` hold the exponent.
    pub ie: bool,
    /// The T field as stored, 12 bits.
    pub t: u16,
    /// The B field as stored, 14 bits.
    pub b: u16,
    /// The capability's own address.
    pub address: u64,
    pub ghost perms_fit: { perms < 2 ^ 16 },
    pub ghost reserved_fits: { reserved < 2 ^ 2 },
    pub ghost otype_fits: { otype < 2 ^ 18 },
    pub ghost t_fits: { t < 2 ^ 12 },
    pub ghost b_fits: { b < 2 ^ 14 },
    pub ghost address_fits: { address < 2 ^ 64 },
}
