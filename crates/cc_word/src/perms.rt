//! Sets of the 16 permissions.
ghost use Rattle.std.specs.Prelude.{⊤, ◌≡◌, ◌↔◌, Some, IsTrue, option_map};
ghost use Rattle.std.specs.Int.RustNames.{bit_and};
ghost use Rattle.bitflags.specs.Sets.{find_name};
ghost use Rattle.cc_word.specs.Permissions.{permission_table, bits_of, HasAll};

use bitflags::{Flag, Flags, bitflag_items};

/// A set of permissions: the operations that a capability allows its holder.
///
/// Each permission is one bit: bit n of the set is bit 112 + n of the word. The operations of the
/// trait `Flags` apply too.
///
/// Source: UCAM-CL-TR-987, the architectural permissions.
#[derive(Clone, Copy, PartialEq, Eq, Debug)]
pub struct Perms(u16);

bitflag_items! {
    impl Perms: u16 {
        /// The permission to be stored by a capability that lacks STORE_LOCAL_CAP.
        const GLOBAL = 1 << 0;
        /// The permission to be executed.
        const EXECUTE = 1 << 1;
        /// The permission to load data.
        const LOAD = 1 << 2;
        /// The permission to store data.
        const STORE = 1 << 3;
        /// The permission to load capabilities with their tags.
        const LOAD_CAP = 1 << 4;
        /// The permission to store capabilities with their tags.
        const STORE_CAP = 1 << 5;
        /// The permission to store capabilities that are not GLOBAL.
        const STORE_LOCAL_CAP = 1 << 6;
        /// The permission to seal with a type within the bounds.
        const SEAL = 1 << 7;
        /// The permission to be invoked together with another capability of its type.
        const CINVOKE = 1 << 8;
        /// The permission to unseal a type within the bounds.
        const UNSEAL = 1 << 9;
        /// The permission to use the system registers.
        const SYSTEM_REGS = 1 << 10;
        /// The permission to set the compartment's number.
        const SET_CID = 1 << 11;
        /// The first of four permissions that software gives a meaning.
        const USER0 = 1 << 12;
        /// The second of four permissions that software gives a meaning.
        const USER1 = 1 << 13;
        /// The third of four permissions that software gives a meaning.
        const USER2 = 1 << 14;
        /// The last of four permissions that software gives a meaning.
        const USER3 = 1 << 15;
    }
}

impl Flags for Perms {
    type Bits = u16;

    ghost exact = { ⊤ };

    ghost table = { permission_table };

    ghost set_of = { bits_of };

    fn flags<'a>() -> &'a [Flag<Perms>] {
        Perms::FLAGS
    }

    fn bits(&self) -> u16 {
        self.0
    }

    fn from_bits_retain(bits: u16) -> Perms {
        Perms(bits)
    }
}

impl Perms {
    /// Returns all 16 permissions: those of the root capability.
    pub fn all() -> Perms
        ensures { bits_of result ≡ 0xffff }
    {
        Perms(u16::MAX)
    }

    /// Returns the permission of this upper-case name, such as `LOAD_CAP`, or `None` for any other
    /// string.
    pub fn from_name(name: &str) -> Option<Perms>
        ensures { option_map bits_of result ≡ find_name permission_table name.now }
    {
        <Perms as Flags>::from_name(name)
    }

    /// Returns the set with these bits. Never `None`, since each of the 16 bits is a permission.
    pub fn from_bits(bits: u16) -> Option<Perms>
        ensures { option_map bits_of result ≡ Some bits }
    {
        Some(Perms(bits))
    }

    /// Returns the permissions as bits, GLOBAL the lowest.
    pub fn bits(self) -> u16
        ensures { result ≡ bits_of self }
    {
        <Perms as Flags>::bits(&self)
    }

    /// Returns whether each permission of the other set is in this one.
    pub fn contains(self, other: Perms) -> bool
        ensures { IsTrue result ↔ HasAll (bits_of self) (bits_of other) }
    {
        self.0 & other.0 == other.0
    }

    /// Returns the permissions that both sets have.
    pub fn intersection(self, other: Perms) -> Perms
        ensures { bits_of result ≡ bit_and (bits_of self) (bits_of other) }
    {
        Perms(self.0 & other.0)
    }
}
