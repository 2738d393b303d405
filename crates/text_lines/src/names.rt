//! Names looked up in what declares them. The lists are short (at most 256 names, each of at most 64 bytes), and a
//! comparison looks at the length first.

ghost use Rattle.std.specs.Prelude.{◌≡◌, ◌≤◌, length, min, not, bytes_eq};
ghost use Rattle.std.specs.List.{prefix_len};
ghost use Rattle.text_lines.specs.Named.{number_of};

use cub_base::Name;
use cub_proto::{Decl, Transition};

fn first_name(names: &[Name], name: &[u8]) -> usize
    ensures { result ≡ prefix_len (λ x. not (bytes_eq x name.now)) names.now }
{
    for (at, other) in names.iter().enumerate() {
        if other.as_slice() == name {
            return at;
        }
    }
    names.len()
}

fn first_decl(decls: &[Decl], name: &[u8]) -> usize
    ensures { result ≡ prefix_len (λ d. not (bytes_eq d.name name.now)) decls.now }
{
    for (at, decl) in decls.iter().enumerate() {
        if decl.name.as_slice() == name {
            return at;
        }
    }
    decls.len()
}

fn first_transition(transitions: &[Transition], name: &[u8]) -> usize
    ensures { result ≡ prefix_len (λ t. not (bytes_eq t.name name.now)) transitions.now }
{
    for (at, transition) in transitions.iter().enumerate() {
        if transition.name.as_slice() == name {
            return at;
        }
    }
    transitions.len()
}

/// The number of the first of these that is called so, or a number past them.
pub fn constructor_number(names: &[Name], name: &[u8]) -> u16
    ensures { result ≡ number_of (λ x. x) names.now name.now }
{
    first_name(names, name).min(65535) as u16
}

/// The number of the first of these globals or arrays that is called so, or a number past them.
pub fn decl_number(decls: &[Decl], name: &[u8]) -> u16
    ensures { result ≡ number_of (λ d. d.name) decls.now name.now }
{
    first_decl(decls, name).min(65535) as u16
}

/// The number of the first transition that is called so, or a number past them.
pub fn transition_number(transitions: &[Transition], name: &[u8]) -> u16
    ensures { result ≡ number_of (λ t. t.name) transitions.now name.now }
{
    first_transition(transitions, name).min(65535) as u16
}
