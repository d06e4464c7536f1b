//! How many records and messages of each kind there are.

/// How many records a capture has.
#[derive(Clone, Copy, Debug, PartialEq, Eq)]
pub struct RecordCounts {
    pub all: u64,
    pub pieces: u64,
    pub ends: u64,
    pub tiers: u64,
}

/// How many requests have each method.
#[derive(Clone, Copy, Debug, PartialEq, Eq)]
pub struct MethodCounts {
    pub get: u64,
    pub head: u64,
    pub other: u64,
}

/// How many requests have each version of HTTP.
#[derive(Clone, Copy, Debug, PartialEq, Eq)]
pub struct VersionCounts {
    pub http10: u64,
    pub http11: u64,
}

/// How many messages have each fault.
#[derive(Clone, Copy, Debug, PartialEq, Eq)]
pub struct FaultCounts {
    pub too_long: u64,
    pub block: u64,
    pub host: u64,
    pub coding: u64,
    pub length: u64,
    pub body_size: u64,
}

/// How many messages arrive on the connections of a capture. Each is a request, or has one of the faults.
#[derive(Clone, Copy, Debug, PartialEq, Eq)]
pub struct MessageCounts {
    pub all: u64,
    pub requests: u64,
    pub methods: MethodCounts,
    pub versions: VersionCounts,
    pub faults: FaultCounts,
}
