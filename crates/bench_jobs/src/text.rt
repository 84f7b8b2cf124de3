//! Texts that are made piece by piece.

use crate::chance::Chance;
use itoa::Buffer;
use std::alloc::Global;

const WORDS: [&str; 48] = [
    "app", "api", "web", "data", "core", "edge", "auth", "cache", "queue", "worker", "batch",
    "stream", "audit", "backup", "billing", "cluster", "config", "deploy", "events", "gateway",
    "health", "index", "ingest", "jobs", "keys", "logs", "mail", "metrics", "network", "orders",
    "payments", "portal", "proxy", "reports", "router", "search", "secrets", "session", "shared",
    "stage", "static", "storage", "sync", "tasks", "tenant", "traffic", "users", "vault",
];

/// A text, and the chance by which it is made. A piece for which there is no memory is left out.
#[derive(Drop)]
pub struct Text {
    pub bytes: Vec<u8>,
    pub chance: Chance,
}

impl Text {
    pub fn new(alloc: Global, chance: Chance) -> Text {
        Text {
            bytes: Vec::new(alloc),
            chance,
        }
    }

    pub fn len(&self) -> usize {
        self.bytes.len()
    }

    pub fn put(&mut self, piece: &str) {
        let _ = self.bytes.extend_from_slice(piece.as_bytes());
    }

    pub fn put_number(&mut self, number: usize) {
        let mut buffer = Buffer::new();
        let _ = self
            .bytes
            .extend_from_slice(buffer.format(number).as_bytes());
    }

    /// Puts a piece `times` times.
    pub fn repeat(&mut self, piece: &str, times: usize) {
        for _ in 0..times {
            self.put(piece);
        }
    }

    /// One of the choices.
    pub fn choose(&mut self, choices: &[&'static str]) {
        let choice = self.chance.of(choices);
        self.put(choice);
    }

    pub fn word(&mut self) {
        self.choose(&WORDS);
    }

    /// A number below a bound.
    pub fn number(&mut self, bound: usize) {
        let number = self.chance.below(bound);
        self.put_number(number);
    }

    /// A name in snake_case.
    pub fn name(&mut self) {
        self.word();
        self.put("_");
        self.word();
        self.put("_");
        self.number(10_000);
    }
}
