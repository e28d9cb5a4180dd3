// The digests of sessions that were counted as silent, the oldest first.
ghost use Rattle.std.specs.Prelude.{◌≡◌, ◌≤◌, ◌<◌, ◌∷◌, ◌++◌, [], eqb, length, if◌then◌else◌};
ghost use mathlib.Core.List.{tail};
ghost use Rattle.rules.specs.Base.{same, any};
ghost use Rattle.lib_list.specs.ShortList.{short_list_len};
ghost use Rattle.gates_types.specs.View.{view_digests, FitDigests};

use gates_types::Digests;
use node_addr::Digest;

// Whether a digest is among them.
pub fn counted_in(r: &Digests, digest: Digest) -> bool
    ensures { result ≡ any (same digest.0) (view_digests r.now) }
{
    r.contains(&digest)
}

// One more; at the limit the oldest gives way.
pub fn counted_with(mut r: Digests, digest: Digest, limit: usize) -> Digests
    requires fit_digests { FitDigests r }
    requires len_le_limit { short_list_len r ≤ limit }
    requires limit_nonzero { 0 < limit }
    requires limit_bound { limit ≤ 8 }
    ensures fit_digests_2 { FitDigests result }
    ensures result_value { view_digests result ≡ (if eqb (length (view_digests r)) limit then tail (view_digests r) else view_digests r) ++ (digest.0 ∷ []) }
{
    if r.len() == limit {
        r.remove(0);
    }
    r.push(digest);
    r
}
