//! The front of a PES packet (ISO/IEC 13818-1, 2.4.3.6 and 2.4.3.7), as far as its time stamps.

ghost use Rattle.std.specs.Prelude.{◌≡◌, ℕ, ◌+◌, ◌*◌, ◌/◌, ◌%◌, ◌^◌, ◌<◌, ◌≤◌};
ghost use Rattle.std.specs.Prelude.{nat_lt, length, slice_index, IfOk, IfSome, MatchResult, true, false};
ghost use Rattle.pes_time.specs.Stamps.{head_of, stamp_of, is_split, pts_of, stamp_at};
ghost use Rattle.pes_time.specs.Stamps.{is_untimed, is_headless, other_start_code, shows, stamp_count};

use crate::time::Time33;
use thiserror::Error;

/// The payload of a unit's first packet ends before the unit's stamps do, or before it tells whether there are any.
#[derive(Clone, Copy, Debug, PartialEq, Eq, Error)]
#[error("the payload ends before the time stamps of the PES header")]
pub struct HeaderSplit;

/// The time stamps at the front of a PES packet.
#[derive(Clone, Copy, Debug, PartialEq, Eq)]
pub enum PesHead {
    /// The stamps stand whole in the payload.
    Timed {
        /// The presentation time stamp.
        pts: Time33,
        /// The decoding time stamp, where there is one.
        dts: Option<Time33>,
        /// The byte of the payload at which the five bytes of the PTS begin.
        pts_at: usize,
        /// The byte at which those of the DTS begin, where there is one.
        dts_at: Option<usize>,
    },
    /// The packet has no time stamps.
    Untimed,
}

/// Whether a byte that is there differs from the start code prefix 00 00 01.
fn has_other_start_code(payload: &[u8]) -> bool
    ensures { result ≡ other_start_code payload.now }
{
    payload.get(0).is_some_and(|b| *b != 0)
        || payload.get(1).is_some_and(|b| *b != 0)
        || payload.get(2).is_some_and(|b| *b != 1)
}

/// Whether PES packets of this stream_id have no header past PES_packet_length.
fn has_no_header(stream_id: u8) -> bool
    ensures { result ≡ is_headless stream_id }
{
    matches!(
        stream_id,
        0xBC | 0xBE | 0xBF | 0xF0 | 0xF1 | 0xF2 | 0xF8 | 0xFF
    )
}

/// The stamp in the five bytes from `at` on.
fn stamp(payload: &[u8], at: usize) -> Time33
    requires { at + 5 ≤ length payload.now }
    ensures { result ≡ stamp_at payload.now at }
{
    let high = u64::from(payload[at] / 2 % 8);
    let middle = u64::from(payload[at + 1]) * (1 << 7) + u64::from(payload[at + 2] / 2);
    let low = u64::from(payload[at + 3]) * (1 << 7) + u64::from(payload[at + 4] / 2);
    Time33::from_ticks(high * (1 << 30) + middle * (1 << 15) + low)
}

/// Whether a byte that is there tells that no stamp is to be read.
#[tactic(auto, unfolding(crate::specs::Stamps::is_untimed))]
fn has_no_stamps(payload: &[u8]) -> bool
    ensures { result ≡ is_untimed payload.now }
{
    has_other_start_code(payload)
        || payload.get(3).is_some_and(|b| has_no_header(*b))
        || payload.get(6).is_some_and(|b| *b / 64 != 2)
        || payload.get(7).is_some_and(|b| *b / 64 < 2)
        || has_short_header(payload)
}

/// Whether PES_header_data_length leaves no room for the stamps that the flags announce.
fn has_short_header(payload: &[u8]) -> bool
    ensures { result ≡ shows payload.now 8 (λ b. nat_lt b (5 * stamp_count payload.now)) }
{
    if payload.len() < 9 {
        return false;
    }
    match payload[7] / 64 {
        3 => payload[8] < 10,
        2 => payload[8] < 5,
        _ => false,
    }
}

impl PesHead {
    /// The presentation time stamp, where there is one.
    pub fn pts(&self) -> Option<Time33>
        ensures { result ≡ pts_of self.now }
    {
        match self {
            PesHead::Timed { pts, .. } => Some(*pts),
            PesHead::Untimed => None,
        }
    }

    /// Reads the stamps from the payload of a unit's first packet.
    ///
    /// # Errors
    ///
    /// [`HeaderSplit`] exactly where the payload ends before the answer is known.
    #[tactic(auto, unfolding(crate::specs::Stamps::head_of, crate::specs::Stamps::stamp_of, crate::specs::Stamps::is_split), using(crate::proofs::StampLemmas::split_short, crate::proofs::StampLemmas::split_before_dts, crate::proofs::StampLemmas::both, crate::proofs::StampLemmas::whole_both, crate::proofs::StampLemmas::stamp_of_below))]
    pub fn read(payload: &[u8]) -> Result<PesHead, HeaderSplit>
        ensures head { result ≡ head_of payload.now }
        ensures stamp { IfOk result (λ head. pts_of head ≡ stamp_of payload.now) }
        ensures below { IfSome (stamp_of payload.now) (λ pts. pts < 2 ^ 33) }
        ensures split { MatchResult result (λ _. is_split payload.now ≡ false) (λ _. is_split payload.now ≡ true) }
    {
        if has_no_stamps(payload) {
            return Ok(PesHead::Untimed);
        }
        if payload.len() < 14 {
            return Err(HeaderSplit);
        }
        let pts = stamp(payload, 9);
        if payload[7] / 64 == 2 {
            return Ok(PesHead::Timed {
                pts,
                dts: None,
                pts_at: 9,
                dts_at: None,
            });
        }
        if payload.len() < 19 {
            return Err(HeaderSplit);
        }
        Ok(PesHead::Timed {
            pts,
            dts: Some(stamp(payload, 14)),
            pts_at: 9,
            dts_at: Some(14),
        })
    }
}
