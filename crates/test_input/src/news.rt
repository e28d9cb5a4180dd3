// The line of a new.
use crate::show::{byte, end_line, first, lease, peer, word};
use input_new::{new_fields, read_new};
use params::Params;
use refusal::Refusal;

fn spans(p: Params) {
    word(p.unheard);
    word(p.interval);
    word(p.silentbase);
    word(p.silentcap);
    word(p.horizon);
    word(p.handshake);
    word(p.resend);
}

fn counts(p: Params) {
    lease(p.silent);
    lease(p.resends);
    byte(p.replays);
    byte(p.counted);
    word(p.pending);
}

// The refusal's number, 0 for none; and me, the first link and the settings, also where they are out of range.
pub fn new_line(s: &[u8]) {
    match read_new(s) {
        Ok(_) => first(0),
        Err(r) => first(Refusal::from(r) as u8),
    }
    if let Some(new) = new_fields(s) {
        peer(new.me);
        word(new.first);
        spans(new.params);
        counts(new.params);
    }
    end_line();
}
