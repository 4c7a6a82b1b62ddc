use crate::mistakes::{explain, usage};
use crate::table::FORMS;
use site_types::Text;
use std::io::Eprint;

const BAD_REQUEST: u8 = 2;

const NOT_A_VAULT: u8 = 22;

/// Tells a person on standard error why a run ended with this status, where its words, its site file or its vault are refused. The
/// payload is that of a site file.
pub fn tell(
    rt: &(impl Eprint + AllocGlobal),
    status: u8,
    folder: &str,
    words: &[Text],
    payload: Option<&[u8]>,
) {
    match status {
        NOT_A_VAULT => {
            let _ = eprintln!(rt; "bpdesk: {folder}/0.nbv is no vault; the file is left as it is");
        }
        BAD_REQUEST => {
            if let Ok(Some(text)) = explain(rt.alloc(), words, payload) {
                let _ = eprint!(rt; "{text}");
            }
            if begins_a_request(folder) {
                let _ = eprintln!(rt;
                    "bpdesk: {folder} was taken for the folder of the vault, which stands before a request"
                );
            }
        }
        _ => {}
    }
}

fn begins_a_request(word: &str) -> bool {
    word == "session" || FORMS.iter().any(|form| form.words.first() == Some(&word))
}

/// Tells a person how the program is called, and what is missing.
pub fn tell_usage(rt: &(impl Eprint + AllocGlobal), missing: &str) {
    if let Ok(text) = usage(rt.alloc(), missing) {
        let _ = eprint!(rt; "{text}");
    }
}
