//! Runs whose network may pause: what came in is out before the next read, and each reply before later packets are read.

mod block_tests;
mod network;
mod pause_tests;
mod reply_tests;
