// Addresses and pairs compared; the settings by default, and which are within range.
use node_addr::place::node_before;
use params::{Params, in_range};
use test_script::show::{number, truth};
use test_script::values::{byte, node, pair};

fn nodes(a: u64, b: u64) {
    let x = node(a);
    let y = node(b);
    truth(x == y);
    truth(node_before(x, y));
}

fn pairs(t: u64, a: u64, u: u64, b: u64) {
    truth(pair(t, a) == pair(u, b));
}

fn settings() {
    let c = Params::default();
    for v in [
        c.unheard,
        c.interval,
        u64::from(c.replays),
        u64::from(c.silent),
        u64::from(c.counted),
        u64::from(c.resends),
        c.silentbase,
        c.silentcap,
        c.horizon,
        c.handshake,
        c.resend,
        c.pending,
    ] {
        number(v);
    }
}

// The settings by default, but for two.
fn range(counted: u64, replays: u64) {
    truth(in_range(Params {
        counted: byte(counted),
        replays: byte(replays),
        ..Params::default()
    }));
}

pub fn show_plain(word: u8, a: u64, b: u64, c: u64, d: u64) {
    match word {
        b'n' => nodes(a, b),
        b'p' => pairs(a, b, c, d),
        b's' => settings(),
        b'i' => range(a, b),
        _ => {}
    }
}
