// The save's format stands in specs/, its laws in proofs/; the code that writes, judges and reads it is `puts`, `judge` and `saves`.
// Here are its marks, which `puts` writes and `judge` asks for.
#![tactic(auto)]

pub const GH: u16 = 0x4847;

pub const ML: u16 = 0x4C4D;

pub const CI: u16 = 0x4943;

pub const CM: u16 = 0x4D43;

pub const FE: u16 = 0x4546;

pub const FH: u16 = 0x4846;

pub const LE: u16 = 0x454C;

pub const LH: u16 = 0x484C;

pub const LT: u16 = 0x544C;

pub const PP: u16 = 0x5050;

pub const AX: u16 = 0x5841;
