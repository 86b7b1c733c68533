//! Counts of the traffic.

/// The traffic of a minute.
#[derive(Clone, Copy, Drop)]
pub(crate) struct Counts {
    pub(crate) connections: u64,
    /// Clients that couldn't be accepted: the listener failed.
    pub(crate) unaccepted: u64,
    pub(crate) requests: u64,
    /// Replies with a status of 200 to 399.
    pub(crate) served: u64,
    /// Replies with a status of 400 to 499.
    pub(crate) refused: u64,
    /// Replies with a status of 500 and above.
    pub(crate) failed: u64,
    pub(crate) bytes_in: u64,
    pub(crate) bytes_out: u64,
}

impl Counts {
    /// No traffic.
    pub(crate) const NONE: Counts = Counts {
        connections: 0,
        unaccepted: 0,
        requests: 0,
        served: 0,
        refused: 0,
        failed: 0,
        bytes_in: 0,
        bytes_out: 0,
    };

    /// Whether there was no traffic.
    pub(crate) fn is_none(&self) -> bool {
        self.connections == 0 && self.unaccepted == 0 && self.bytes_in == 0 && self.bytes_out == 0
    }

    /// Counts an accepted connection.
    pub(crate) fn add_connection(&mut self) {
        self.connections = self.connections.saturating_add(1);
    }

    /// Counts a client that couldn't be accepted.
    pub(crate) fn add_unaccepted(&mut self) {
        self.unaccepted = self.unaccepted.saturating_add(1);
    }

    /// Counts a request whose head came.
    pub(crate) fn add_request(&mut self) {
        self.requests = self.requests.saturating_add(1);
    }

    /// Counts received bytes.
    pub(crate) fn add_in(&mut self, bytes: usize) {
        self.bytes_in = self.bytes_in.saturating_add(bytes as u64);
    }

    /// Counts sent bytes.
    pub(crate) fn add_out(&mut self, bytes: usize) {
        self.bytes_out = self.bytes_out.saturating_add(bytes as u64);
    }

    /// Counts a reply with this status.
    pub(crate) fn add_reply(&mut self, status: u16) {
        let class = match status {
            0..=399 => &mut self.served,
            400..=499 => &mut self.refused,
            _ => &mut self.failed,
        };
        *class = class.saturating_add(1);
    }
}
