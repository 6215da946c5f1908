//! Tests of what stands on the codecs: events, the following of a program, the advertisement library, and the injector. No program stands
//! on it.
#![tactic(auto)]

/// `assert_eq!` without a note, as one call: `expect_eq!(rt; left, right)`.
#[cfg(test)]
macro_rules! expect_eq {
    ($rt:expr; $left:expr, $right:expr $(,)?) => {
        crate::equality::expect_equal(&$rt, &$left, &$right)
    };
}

#[cfg(test)]
mod adverts;
#[cfg(test)]
mod armed;
#[cfg(test)]
mod equality;
#[cfg(test)]
mod events;
#[cfg(test)]
mod following;
pub mod fronts;
#[cfg(test)]
mod injecting;
#[cfg(test)]
mod networks;
#[cfg(test)]
mod outgoing;
#[cfg(test)]
mod requests;
