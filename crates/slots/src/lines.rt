//! How certificates are taken away.

/// How a certificate is taken away.
#[derive(Clone, Copy)]
pub enum Taken {
    Fired,
    Withdrawn,
}
