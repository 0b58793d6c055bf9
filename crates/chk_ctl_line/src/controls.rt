//! Control doors as words name them.

ghost use Rattle.std.specs.Prelude.{◌≡◌, map, option_map};
ghost use Rattle.std.specs.List.{list_all};
ghost use Rattle.chk_ctl_line.specs.Controls.{are_controls, control_by, control_in};
ghost use Rattle.chk_ctl_line.specs.Controls.{control_of, is_control};

use crate::names::is_word;

/// An agent's control door, as `--control NAME=ADDRESS` names it.
#[derive(Clone, Copy, Debug)]
pub struct ControlWords<'a> {
    /// What it is called, a word.
    pub name: &'a str,
    /// Its address, a word.
    pub address: &'a str,
}

/// The name and the address that the first `=` of a text parts, where both are words.
pub fn control_in<'a>(text: &'a str) -> Option<ControlWords<'a>>
    ensures { option_map control_of result ≡ control_in text.now }
{
    match text.split_once('=') {
        Some((name, address)) => control_by(name, address),
        None => None,
    }
}

fn control_by<'a>(name: &'a str, address: &'a str) -> Option<ControlWords<'a>>
    ensures { option_map control_of result ≡ control_by name.now address.now }
{
    if is_word(address) && is_word(name) {
        Some(ControlWords { name, address })
    } else {
        None
    }
}

/// Whether each of the texts names a control door; so it is where there are none.
pub(crate) fn are_controls(texts: Option<&[&str]>) -> bool
    ensures { result ≡ are_controls (option_map (λ s. map (λ w. w.now) s.now) texts.entry) }
{
    match texts {
        Some(texts) => all_controls(texts),
        None => true,
    }
}

fn all_controls(texts: &[&str]) -> bool
    ensures { result ≡ list_all (λ w. is_control w.now) texts.now }
{
    texts.iter().all(|text| is_control(text))
}

fn is_control(text: &str) -> bool
    ensures { result ≡ is_control text.now }
{
    control_in(text).is_some()
}
