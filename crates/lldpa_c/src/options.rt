//! The options with which C opens an agent.

/// A text without a 0 at the end.
#[repr(C)]
#[derive(Clone, Copy)]
pub struct LldpaText<'a> {
    pub octets: &'a [u8],
}

#[repr(C)]
#[derive(Clone, Copy)]
pub struct LldpaOptions<'a> {
    /// The size of the struct in octets, which `front/lldpa.c` checks.
    pub size: usize,
    pub ports: &'a [LldpaText<'a>],
    pub hostname: LldpaText<'a>,
    pub mac: [u8; 6],
    pub management: [u8; 4],
    pub managed: bool,
    pub receive_only: bool,
    pub role: u32,
    pub max_neighbors: u32,
    pub credit_max: u32,
    pub fast_init: u32,
    pub reinit: u32,
}
