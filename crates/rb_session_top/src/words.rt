//! The words of a session, and of a server of one address.
ghost use Rattle.rb_session_top.specs.Words.{is_one, is_serve, manifest_words, serve_words, serve_words_of, session_words, session_words_of, store_file};
ghost use Rattle.std.specs.Prelude.{◌≡◌, option_map};

use rb_causes::{Text, decimal};

/// What `session MANIFEST STORE` says.
#[derive(Clone, Copy, Debug)]
pub struct SessionFiles<'a> {
    pub manifest: &'a str,
    /// The file in which rows are kept; None for memory alone.
    pub store: Option<&'a str>,
}

/// What `serve MANIFEST STORE 1 CALLERS ADDRESS` says. One worker works.
#[derive(Clone, Copy, Debug)]
pub struct Serving<'a> {
    pub manifest: &'a str,
    /// The file in which rows are kept; None for memory alone.
    pub store: Option<&'a str>,
    /// How many callers are served; 0 for any number.
    pub callers: u64,
    pub address: &'a str,
}

/// The name of the manifest, where the words are a session's or a server's.
pub(crate) fn manifest_in(words: &[Text]) -> Option<&str>
    ensures { option_map (λ name. name.now) result ≡ manifest_words words.now }
{
    match serving_in(words) {
        Some(serving) => Some(serving.manifest),
        None => match session_in(words) {
            Some(session) => Some(session.manifest),
            None => None,
        },
    }
}

/// What the words say, where they are a session's.
pub fn session_in(words: &[Text]) -> Option<SessionFiles<'_>>
    ensures { option_map
        (λ s. session_words_of s.manifest.now (option_map (λ file. file.now) s.store)) result
        ≡ session_words words.now }
{
    match words {
        [form, manifest, store] if form.as_str() == "session" => Some(SessionFiles {
            manifest: manifest.as_str(),
            store: store_file(store.as_str()),
        }),
        _ => None,
    }
}

/// What the words say, where they are those of a server of one address and one worker.
pub fn serving_in(words: &[Text]) -> Option<Serving<'_>>
    ensures { option_map (λ s. serve_words_of s.manifest.now (option_map (λ file. file.now) s.store)
        s.address.now s.callers) result ≡ serve_words words.now }
{
    match words {
        [form, manifest, store, workers, callers, address]
            if is_serve(form.as_str(), workers.as_str()) => {
            match decimal(callers.as_str()) {
                Some(callers) => Some(Serving {
                    manifest: manifest.as_str(),
                    store: store_file(store.as_str()),
                    callers,
                    address: address.as_str(),
                }),
                None => None,
            }
        }
        _ => None,
    }
}

/// The file that the word of a store names; `-` names none.
pub fn store_file(store: &str) -> Option<&str>
    ensures { option_map (λ file. file.now) result ≡ store_file store.now }
{
    if store == "-" { None } else { Some(store) }
}

fn is_serve(form: &str, workers: &str) -> bool
    ensures { result ≡ is_serve form.now workers.now }
{
    form == "serve" && is_one(decimal(workers))
}

fn is_one(number: Option<u64>) -> bool
    ensures { result ≡ is_one number }
{
    match number {
        Some(number) => number == 1,
        None => false,
    }
}
