//! Tests what no transcript of `examples/` can show: connections, and devices that fail or that
//! read and write few octets at a time.

mod devices;
mod failing;
mod listening;
mod runs;
mod sockets;
mod statuses;
