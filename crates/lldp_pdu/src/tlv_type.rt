//! The TLV types of the basic set (IEEE 802.1AB-2009, table 8-1). Types 9 to 126 are reserved.

pub const END_OF_LLDPDU: u8 = 0;

pub const CHASSIS_ID: u8 = 1;

pub const PORT_ID: u8 = 2;

pub const TIME_TO_LIVE: u8 = 3;

pub const PORT_DESCRIPTION: u8 = 4;

pub const SYSTEM_NAME: u8 = 5;

pub const SYSTEM_DESCRIPTION: u8 = 6;

pub const SYSTEM_CAPABILITIES: u8 = 7;

pub const MANAGEMENT_ADDRESS: u8 = 8;

pub const FIRST_RESERVED: u8 = 9;

pub const ORGANIZATIONALLY_SPECIFIC: u8 = 127;
