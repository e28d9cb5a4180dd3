// Sessions in a row that ended unheard.
#![tactic(auto)]

pub mod counted;

ghost use Rattle.std.specs.Prelude.{◌≡◌, false, ◌≤◌, option_map};
ghost use Rattle.rules.specs.Base.{option, any, same};
ghost use Rattle.rules.specs.Bounds.{IfAny};
ghost use Rattle.rules.specs.Gates as rule;
ghost use Rattle.params.specs.View.{view_params};
ghost use Rattle.lib_list.specs.ShortList.{short_list_len};
ghost use Rattle.gates_types.specs.View.{view_digest, view_digests, view_silence, FitDigests, FitSilence, FitParams};
ghost use Rattle.gates_silence.specs.Silences.{new_silence, ended_in};

use crate::counted::{counted_in, counted_with};
use gates_types::{Digests, Silence};
use node_addr::Digest;
use params::Params;
use params::time::{backoff, deadline, one_more};

// A silence at an epoch with nothing counted.
fn new_silence(epoch: u64, clock: u64) -> Silence
    ensures fit_silence { FitSilence result }
    ensures result_value { view_silence result ≡ new_silence epoch clock }
    ensures len_value { short_list_len result.counted ≡ 0 }
{
    Silence {
        epoch: Some(epoch),
        count: 0,
        last: clock,
        until: None,
        counted: Digests::new(),
    }
}

// Whether the horizon has passed the end of the refusal, else the last count.
#[tactic(auto, unfolding(rules::specs::Gates::expired))]
pub fn expired(s: &Silence, clock: u64, c: Params) -> bool
    ensures { result ≡ rule.expired (view_params c) clock (view_silence s.now) }
{
    deadline(s.until.unwrap_or(s.last), c.horizon) <= clock
}

// The record that an ending is counted in: the one there, or anew where it has expired or is of another epoch. An unknown epoch is taken for this one.
pub fn counting(s: Option<Silence>, epoch: u64, clock: u64, c: Params) -> Silence
    requires { IfAny FitSilence s }
    ensures fit_silence { FitSilence result }
    ensures result_value { view_silence result ≡ rule.counting (view_params c) clock (Some epoch) (option_map view_silence s) }
    ensures len_le_len { short_list_len result.counted ≤ option s 0 (λ x. short_list_len x.counted) }
{
    match s {
        Some(mut r) if !expired(&r, clock, c) && r.epoch.unwrap_or(epoch) == epoch => {
            r.epoch = Some(epoch);
            r
        }
        _ => new_silence(epoch, clock),
    }
}

// Whether the session's digest was counted already.
fn already(r: &Digests, setup: Option<Digest>) -> bool
    ensures { result ≡ option (option_map view_digest setup) false (λ e. any (same e) (view_digests r.now)) }
{
    setup.is_some_and(|e| counted_in(r, e))
}

// The digests with the session's.
#[tactic(auto, unfolding(rules::specs::Gates::counted_with))]
fn counted_too(r: Digests, setup: Option<Digest>, c: Params) -> Digests
    requires fit_digests { FitDigests r }
    requires fit_params { FitParams c }
    requires len_le_counted { short_list_len r ≤ c.counted }
    ensures fit_digests_2 { FitDigests result }
    ensures result_value { view_digests result ≡ rule.counted_with (view_params c) (option_map view_digest setup) (view_digests r) }
{
    match setup {
        Some(e) => counted_with(r, e, c.counted as usize),
        None => r,
    }
}

// One more silence; from so many on a msg1 is refused for a while.
#[tactic(auto, unfolding(rules::specs::Gates::silenced))]
fn silenced(s: Silence, setup: Option<Digest>, clock: u64, c: Params) -> Silence
    requires fit_silence { FitSilence s }
    requires fit_params { FitParams c }
    requires len_le_counted { short_list_len s.counted ≤ c.counted }
    ensures fit_silence_2 { FitSilence result }
    ensures result_value { view_silence result ≡ rule.silenced (view_params c) clock (option_map view_digest setup) (view_silence s) }
{
    let count = one_more(s.count);
    let until = if count < c.silent {
        s.until
    } else {
        Some(deadline(clock, backoff(count - c.silent, c.silentbase, c.silentcap)))
    };
    Silence {
        count,
        last: clock,
        until,
        counted: counted_too(s.counted, setup, c),
        ..s
    }
}

// An ending counted, unless its digest was counted already.
pub fn ended_in(s: Silence, setup: Option<Digest>, clock: u64, c: Params) -> Silence
    requires fit_silence { FitSilence s }
    requires fit_params { FitParams c }
    requires len_le_counted { short_list_len s.counted ≤ c.counted }
    ensures fit_silence_2 { FitSilence result }
    ensures result_value { view_silence result ≡ ended_in (view_params c) clock (option_map view_digest setup) (view_silence s) }
{
    if already(&s.counted, setup) {
        s
    } else {
        silenced(s, setup, clock, c)
    }
}
