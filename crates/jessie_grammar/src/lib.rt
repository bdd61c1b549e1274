//! The grammar of the contract language: tokens, names and their scopes, the tree of a module, and
//! the rules by which a text is read.
#![tactic(auto)]

pub mod jessie_language;
pub mod jessie_lexer;
pub mod jessie_scopes;
pub mod jessie_texts;
pub mod syntax;

/// What `host_text` gives to those above.
pub mod host_text_lib {
    pub mod text {
        pub use host_text::text::Text;
    }
}
