//! Protocols by which an upstream is asked.

/// A transport protocol. It is a value without effect here: the handle that the caller hands in decides how
/// it asks.
#[derive(Clone, Copy, Debug, PartialEq, Eq)]
pub enum Protocol {
    /// Plain DNS over UDP (RFC 1035, section 4.2.1).
    Udp,
    /// Plain DNS over TCP (RFC 7766).
    Tcp,
    /// DNS over TLS (RFC 7858).
    Tls,
    /// DNS over HTTPS (RFC 8484).
    Https,
    /// DNS over QUIC (RFC 9250).
    Quic,
    /// DNS over HTTP/3 (RFC 8484, RFC 9114).
    H3,
}
