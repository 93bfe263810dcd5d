use kp_edge::Blob;

/// Where a broker listens: a host's name or number, and a TCP port.
#[derive(Debug, Drop)]
pub struct Address {
    pub host: Blob,
    pub port: u16,
}
