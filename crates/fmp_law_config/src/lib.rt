//! The grammar of configuration texts, apart from how they are read, and that both agree.
//!
//! There is no code here: a law is the contract of a function without a body. In the grammar a text is parts, one after the
//! other, each where it may stand: blanks, comments, words, strings, other bytes, and the beginnings and ends of directives. They
//! spell its tokens (`SpellsTokens` in `specs/Tokens`; how a part is written is in `specs/Parts`). The tokens are directives and
//! clauses, and the clauses say a configuration one after the other (`Configures` in `specs/Grammar`; what statements say is in
//! `specs/Meaning`). It knows no reader and no fault.
//!
//! `spelled_tokens_are_read` and `read_tokens_are_spelled` are the two directions of tokens, `configured_texts_are_read` and
//! `read_texts_configure` those of whole texts, and by `texts_configure_one_machine` a text says at most one configuration.
//! `faults_need_nothing_after` says where the first fault is found (`specs/FirstFaults`), and by `texts_are_cut_before_tokens` a
//! text can be cut before each of its tokens (`specs/Cuts`).
#![tactic(auto)]

mod laws;

pub use laws::{
    configured_texts_are_read, faults_need_nothing_after, read_texts_configure,
    read_tokens_are_spelled, spelled_tokens_are_read, texts_are_cut_before_tokens,
    texts_configure_one_machine,
};
