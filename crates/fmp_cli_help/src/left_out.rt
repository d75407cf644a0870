//! The service calls and statements of other kernels of this kind that the profile leaves out.
ghost use Rattle.std.specs.Prelude.{◌≡◌, ◌==◌};
ghost use Rattle.std.specs.List.{starts_with, ends_with, list_any};
ghost use Rattle.std.specs.Str.{bytes_eq};
ghost use Rattle.fmp_cli_help.specs.LeftOut as spec;

/// How the names of left-out families begin: dynamic creation and deletion, references, and initialization.
const BEGINNINGS: [&[u8]; 4] = [b"acre_", b"del_", b"ref_", b"ini_"];

/// How they end: mutexes, mailboxes, priority data queues, message buffers, variable pools, task exceptions, overrun handlers.
const ENDINGS: [&[u8]; 7] = [
    b"_mtx", b"_mbx", b"_pdq", b"_mbf", b"_mpl", b"_tex", b"_ovr",
];

/// Those that are left out one by one.
const NAMES: [&[u8]; 46] = [
    b"frsm_tsk",
    b"isig_tim",
    b"get_inf",
    b"dis_wai",
    b"idis_wai",
    b"ena_wai",
    b"iena_wai",
    b"set_tim",
    b"get_tim",
    b"get_utm",
    b"sns_ker",
    b"ext_ker",
    b"chg_ipm",
    b"get_ipm",
    b"dis_int",
    b"ena_int",
    b"xsns_dpn",
    b"xsns_xpn",
    b"CRE_MTX",
    b"CRE_MBX",
    b"CRE_PDQ",
    b"CRE_MBF",
    b"CRE_MPL",
    b"DEF_TEX",
    b"DEF_OVR",
    b"DEF_EXC",
    b"CFG_INT",
    b"DEF_INH",
    b"ATT_ISR",
    b"ATT_INI",
    b"ATT_TER",
    b"TMO_NBLK",
    b"get_lod",
    b"mget_lod",
    b"get_nth",
    b"mget_nth",
    b"ras_ter",
    b"dis_ter",
    b"ena_ter",
    b"sns_ter",
    b"adj_tim",
    b"fch_hrt",
    b"clr_int",
    b"ras_int",
    b"prb_int",
    b"CRE_ISR",
];

/// Whether a word begins with one of these.
pub(crate) fn begins_with_one(beginnings: &[&[u8]], word: &[u8]) -> bool
    ensures { result ≡ list_any (λ beginning. starts_with ◌==◌ word.now beginning.now) beginnings.now }
{
    for beginning in beginnings {
        if word.starts_with(beginning) {
            return true;
        }
    }
    false
}

/// Whether a word ends with one of these.
fn ends_with_one(endings: &[&[u8]], word: &[u8]) -> bool
    ensures { result ≡ list_any (λ ending. ends_with ◌==◌ word.now ending.now) endings.now }
{
    for ending in endings {
        if word.ends_with(ending) {
            return true;
        }
    }
    false
}

/// Whether a word is one of these names.
pub(crate) fn is_one(names: &[&[u8]], word: &[u8]) -> bool
    ensures { result ≡ list_any (λ name. bytes_eq name.now word.now) names.now }
{
    for name in names {
        if *name == word {
            return true;
        }
    }
    false
}

/// Whether the word is the name of a service call or a statement that is left out.
#[tactic(auto, unfolding(crate::specs::LeftOut::is_left_out))]
pub fn is_left_out(word: &[u8]) -> bool
    ensures { result ≡ spec.is_left_out word.now }
{
    begins_with_one(&BEGINNINGS, word) || ends_with_one(&ENDINGS, word) || is_one(&NAMES, word)
}
