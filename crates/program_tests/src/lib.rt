//! Runs of the program, of what it is put together from, of several services, of networks that pause, and of the cut over lines: printed lines,
//! exit statuses, files and clients. The whole program is compiled for them, so they are one crate. It stands on `dpi_program` and the crates below
//! it; no program stands on it.
#![tactic(auto)]

/// `assert_eq!` without a note, as one call: `expect_eq!(rt; left, right)`.
#[cfg(test)]
macro_rules! expect_eq {
    ($rt:expr; $left:expr, $right:expr $(,)?) => {
        crate::equality::expect_equal(&$rt, &$left, &$right)
    };
}

#[cfg(test)]
mod air_tests;
#[cfg(test)]
mod cut_tests;
#[cfg(test)]
mod device_tests;
#[cfg(test)]
mod equality;
#[cfg(test)]
mod expecting;
#[cfg(test)]
mod inject_tests;
#[cfg(test)]
mod list_tests;
#[cfg(test)]
mod live;
#[cfg(test)]
mod log_tests;
#[cfg(test)]
mod plans;
#[cfg(test)]
mod report_tests;
#[cfg(test)]
mod script_tests;
#[cfg(test)]
mod service_list_tests;
#[cfg(test)]
mod services;
#[cfg(test)]
mod splice_tests;
pub mod told;
