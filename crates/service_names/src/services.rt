//! The names of services.

ghost use Rattle.std.specs.Prelude.{◌≡◌, ◌≤◌, option_map, length, true};
ghost use Rattle.psi_tables.specs.Runs.{things_of};
ghost use Rattle.service_names.specs.Services.{is_description, services_in, service_at, descriptors_of};
ghost use Rattle.service_names.specs.Services.{counted_at, name_in, name_told, name_of};
ghost use Rattle.service_names.specs.Services.{taken_service, shown_service};

use psi_section::section_length;
use table_descriptors::find_descriptor;
use wire_fields::{bytes_from, number12, number16};

/// The tag of a service_descriptor.
const SERVICE: u8 = 0x48;

/// The text of the name that a service description section gives the service of this number, its selection of a character table
/// included. `None` where the bytes are no such section that applies now to the stream that it is in, where it does not list the
/// service, or where the service has no service_descriptor with a whole name.
pub fn service_name(section: &[u8], number: u16) -> Option<&[u8]>
    ensures { option_map (λ b. b.now) result ≡ name_of number section.now }
{
    if !is_description(section) {
        return None;
    }
    match find_descriptors(services(section), number) {
        None => None,
        Some(descriptors) => name_told(descriptors),
    }
}

/// Whether bytes are a service description section of the stream that it is in, and it applies now.
#[tactic(auto, unfolding(crate::specs::Services::is_description))]
fn is_description(bytes: &[u8]) -> bool
    ensures value { result ≡ is_description bytes.now }
    ensures long { result ≡ true → 15 ≤ length bytes.now }
{
    if bytes.len() < 15 {
        return false;
    }
    let size = section_length(bytes);
    bytes[0] == 0x42
        && bytes[1] / 128 % 2 == 1
        && size <= 1021
        && size + 3 == bytes.len()
        && bytes[5] % 2 == 1
}

/// The bytes of a section's services.
fn services(section: &[u8]) -> &[u8]
    requires { 15 ≤ length section.now }
    ensures { result.now ≡ services_in section.now }
{
    let (front, _) = section.split_at(section.len() - 4);
    bytes_from(front, 11)
}

/// The number of the first service, its descriptors and the bytes behind it; `None` where the bytes end before it does.
#[tactic(auto, unfolding(crate::specs::Services::service_at))]
fn first_service(bytes: &[u8]) -> Option<(u16, &[u8], &[u8])>
    ensures { option_map taken_service result ≡ option_map shown_service (service_at bytes.now) }
{
    if bytes.len() < 5 {
        return None;
    }
    let size = number12(bytes, 3) as usize;
    if bytes.len() < 5 + size {
        return None;
    }
    Some((number16(bytes, 0), &bytes[5..5 + size], &bytes[5 + size..]))
}

/// The descriptors of the first of the services that has this number.
#[tactic(auto, using(crate::proofs::ServiceLemmas::service_here, crate::proofs::ServiceLemmas::service_later, crate::proofs::ServiceLemmas::service_never, crate::proofs::ServiceLemmas::service_shorter))]
fn find_descriptors(services: &[u8], number: u16) -> Option<&[u8]>
    ensures { option_map (λ b. b.now) result ≡ descriptors_of number (things_of service_at services.now) }
{
    let mut rest = services;
    while let Some((found, descriptors, after)) = first_service(rest) {
        if found == number {
            return Some(descriptors);
        }
        rest = after;
    }
    None
}

/// The name that descriptors give.
fn name_told(descriptors: &[u8]) -> Option<&[u8]>
    ensures { option_map (λ b. b.now) result ≡ name_told descriptors.now }
{
    match find_descriptor(descriptors, SERVICE) {
        None => None,
        Some(body) => name_in(body),
    }
}

/// The name in the data of a service_descriptor.
fn name_in(body: &[u8]) -> Option<&[u8]>
    ensures { option_map (λ b. b.now) result ≡ name_in body.now }
{
    if body.len() < 2 {
        return None;
    }
    counted_at(2 + body[1] as usize, body)
}

/// The text behind its length, at this place.
fn counted_at(place: usize, bytes: &[u8]) -> Option<&[u8]>
    requires { place ≤ 300 }
    ensures { option_map (λ b. b.now) result ≡ counted_at place bytes.now }
{
    if bytes.len() <= place {
        return None;
    }
    let size = bytes[place] as usize;
    if bytes.len() < place + 1 + size {
        return None;
    }
    Some(&bytes[place + 1..place + 1 + size])
}
