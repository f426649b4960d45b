// The columns of a row of the send ring: what is kept of a segment beside its payload.
pub const CONV: usize = 0;

pub const FRG: usize = 1;

pub const SN: usize = 2;

pub const TS: usize = 3;

pub const RESENDTS: usize = 4;

pub const RTO: usize = 5;

pub const FASTACK: usize = 6;

pub const XMIT: usize = 7;
