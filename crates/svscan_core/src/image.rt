//! The services as plain data.
ghost use Rattle.std.specs.Prelude.{◌≡◌, ◌<◌, Some, IfOk, slice_get, length};

use super::slots::Slots;
use s6_events::NoMemory;
use std::alloc::Allocator;
use std::marker::Model;
use supervise_core::ServiceImage;

/// The services of a registry as plain data, in rising serial, and the serial of the next one. A
/// clause sees it as what the registry shows.
#[derive(Drop)]
pub struct RegistryImage<A: Allocator> {
    pub services: Vec<ServiceImage<A>, A>,
    pub next_sid: u64,
}

impl<A: Allocator> Model for RegistryImage<A> {
    ghost use Rattle.svscan_core.specs.Table.{Table};

    ghost Value = { Table };

    ghost view = { λ r. record { services = r.services.items; next_sid = r.next_sid } };
}

// The service at this place as plain data.
fn image_at<A: Allocator + Copy>(
    alloc: A,
    slots: &Slots<A>,
    place: usize,
) -> Result<ServiceImage<A>, NoMemory>
    requires { place < length slots.now.services }
    ensures { IfOk result (λ image. slice_get slots.now.services place ≡ Some image) }
{
    match slots.nth(place) {
        Some(service) => service.image(alloc),
        // `images_of` asks only for places below the number of services.
        None => unreachable!(),
    }
}

/// All services as plain data.
pub fn images_of<A: Allocator + Copy>(
    alloc: A,
    slots: &Slots<A>,
) -> Result<Vec<ServiceImage<A>, A>, NoMemory>
    ensures { IfOk result (λ images. images.items ≡ slots.now.services) }
{
    let mut images = Vec::new(alloc);
    for place in 0..slots.len() {
        images.push(image_at(alloc, slots, place)?)?;
    }
    Ok(images)
}
