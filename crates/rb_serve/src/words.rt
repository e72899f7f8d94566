//! The words of a server of several doors and workers.
ghost use Rattle.rb_serve.specs.Words.{crew_by, crew_words, crew_words_of, is_form, workers_of};
ghost use Rattle.rb_session_top.specs.Words.{store_file};
ghost use Rattle.std.specs.Prelude.{◌≡◌, length, option_map};

use rb_causes::{Text, decimal};
use rb_session_top::store_file;

/// What `serve MANIFEST STORE WORKERS CALLERS ADDRESS ...` says.
#[derive(Clone, Copy, Debug)]
pub struct Crew<'a> {
    pub manifest: &'a str,
    /// The file in which rows are kept; None for memory alone.
    pub store: Option<&'a str>,
    /// How many workers work, 1 to 64.
    pub workers: u32,
    /// How many callers each door serves; 0 for any number.
    pub callers: u64,
    /// The addresses, 1 to 16: each has a door.
    pub addresses: &'a [Text],
}

/// What the words say, where they are a server's.
pub fn crew_in(words: &[Text]) -> Option<Crew<'_>>
    ensures { option_map (λ c. crew_words_of c.manifest.now
        (option_map (λ file. file.now) c.store) c.workers c.callers c.addresses.now) result
        ≡ crew_words words.now }
{
    match words {
        [form, manifest, store, workers, callers, addresses @ ..]
            if is_form(form.as_str(), addresses.len()) => {
            match workers_of(decimal(workers.as_str())) {
                Some(workers) => match decimal(callers.as_str()) {
                    Some(callers) => Some(Crew {
                        manifest: manifest.as_str(),
                        store: store_file(store.as_str()),
                        workers,
                        callers,
                        addresses,
                    }),
                    None => None,
                },
                None => None,
            }
        }
        _ => None,
    }
}

/// The first word is `serve`, and so many addresses may be served.
fn is_form(form: &str, addresses: usize) -> bool
    ensures { result ≡ is_form form.now addresses }
{
    form == "serve" && 1 <= addresses && addresses <= 16
}

/// So many workers may work.
fn workers_of(number: Option<u64>) -> Option<u32>
    ensures { result ≡ workers_of number }
{
    match number {
        Some(number) if 1 <= number && number <= 64 => Some(number as u32),
        _ => None,
    }
}
