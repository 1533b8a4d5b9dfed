//! The images of the partitions: each is read, and completes its partition's description.

ghost use Rattle.std.specs.Prelude.{◌≡◌, ◌≢◌, ◌<◌, ◌≤◌, ◌++◌, [], ◌∷◌, List, None, codes, drop, IfErr, IfOk, IfSome, IsErrOf, OnOk, Contains, length, slice_index_or};
ghost use Rattle.outside.specs.Fault.{Rose};
ghost use Rattle.outside.specs.Limit.{file_limit};
ghost use Rattle.hv_config.specs.declared.config.PartDef.{PartDef};
ghost use Rattle.machine_desc.specs.declared.desc.Desc.{Desc as DescValue};
ghost use Rattle.config_descs.specs.Desc.{desc_of};
ghost use Rattle.elf_image.specs.Piece.{AreOf};
ghost use Rattle.fresh_load.specs.Described as loaded;
ghost use Rattle.guest_tree.specs.Laws.{largest_blob};
ghost use Rattle.topaz_run.specs.Plan.{Plan, outcome_of, needs_of};
ghost use Rattle.topaz_run.specs.Imaging as spec;
ghost use Rattle.topaz_run.specs.Laws.{AreDescribed, IsDescribed};
ghost use Rattle.topaz_run.specs.Answers.{GoesOn, Stops, StopsBy};

use crate::guest::guest_of;
use crate::read::read_file;
use crate::refuse::refused_image;
use crate::status::Stop;
use config_rules::{Accepted, descriptions_are_joined};
use elf_image::{Image, plan};
use fresh_load::describe;
use machine_desc::Desc;
use outside::{Files, Listed, NoMemory};
use std::alloc::Global;

/// Reads the images of an accepted configuration's partitions in document order, and answers the descriptions that they
/// complete. However a plan goes on with them, an early end here is one of the plan.
pub fn read_images<F: Files>(
    alloc: Global,
    files: &mut F,
    accepted: &Accepted,
) -> Result<Listed<Desc>, Stop>
    ensures described { IfOk result (λ descs. AreDescribed accepted.now accepted.now.parts descs) }
    ensures goes_on { IfOk result (λ descs. IfSome (F.content files.old) (λ content.
        (next : List DescValue → Plan) → GoesOn content (spec.imaging accepted.now accepted.now.parts [] next) (next descs))) }
    ensures stopped { IfErr result (λ stop. IfSome (F.content files.old) (λ content.
        (next : List DescValue → Plan) → Stops stop (outcome_of content (spec.imaging accepted.now accepted.now.parts [] next)))) }
    ensures read_fault { IsErrOf result Stop.ReadFault → Rose (F.faults files.old) (F.faults files.new) }
    ensures needed { IsErrOf result Stop.ReadFault → IfSome (F.content files.old) (λ content.
        (next : List DescValue → Plan) → Contains (needs_of content (spec.imaging accepted.now accepted.now.parts [] next)) (F.blamed files.new)) }
    ensures counted { F.faults files.old ≤ F.faults files.new }
    ensures content { F.content files.new ≡ F.content files.old }
{
    let count = accepted.config().parts.as_slice().len();
    let mut descs = Listed::new(alloc);
    for part in 0..count {
        let desc = read_image(alloc, files, accepted, part)?;
        descs.push(desc)?;
    }
    Ok(descs)
}

/// Reads the image of the partition of that number, and answers the description that it completes.
fn read_image<F: Files>(
    alloc: Global,
    files: &mut F,
    accepted: &Accepted,
    part: usize,
) -> Result<Desc, Stop>
    requires { part < length accepted.now.parts }
    ensures described { IfOk result (λ desc. (d : PartDef) → IsDescribed accepted.now (slice_index_or accepted.now.parts part d) desc) }
    ensures goes_on { (d : PartDef) → IfOk result (λ desc. IfSome (F.content files.old) (λ content.
        (next : DescValue → Plan) → GoesOn content (spec.describing accepted.now (slice_index_or accepted.now.parts part d) next) (next desc))) }
    ensures stopped { (d : PartDef) → IfErr result (λ stop. IfSome (F.content files.old) (λ content.
        (next : DescValue → Plan) → Stops stop (outcome_of content (spec.describing accepted.now (slice_index_or accepted.now.parts part d) next)))) }
    ensures read_fault { IsErrOf result Stop.ReadFault → Rose (F.faults files.old) (F.faults files.new) }
    ensures needed { (d : PartDef) → IsErrOf result Stop.ReadFault → IfSome (F.content files.old) (λ content.
        (next : DescValue → Plan) → Contains (needs_of content (spec.describing accepted.now (slice_index_or accepted.now.parts part d) next)) (F.blamed files.new)) }
    ensures counted { F.faults files.old ≤ F.faults files.new }
    ensures content { F.content files.new ≡ F.content files.old }
{
    let place = place_of(alloc, accepted, part)?;
    let bytes = read_file(alloc, files, image_name(accepted, part), &place)?;
    complete(alloc, accepted, part, bytes.as_slice(), &place)
}

/// The path of the partition of that number, where a rule is broken by its image.
fn place_of(alloc: Global, accepted: &Accepted, part: usize) -> Result<Vec<u8>, NoMemory>
    requires { part < length accepted.now.parts }
    ensures { IfOk result (λ place. (d : PartDef) → place.items ≡ spec.part_place (slice_index_or accepted.now.parts part d)) }
{
    let config = accepted.config();
    let mut place = Vec::from_slice(alloc, b"/partitions/")?;
    place.extend_from_slice(config.parts.as_slice()[part].name.as_slice())?;
    Ok(place)
}

/// The name of the image of the partition of that number.
fn image_name(accepted: &Accepted, part: usize) -> &str
    requires { part < length accepted.now.parts }
    ensures { (d : PartDef) → result.now ≡ (slice_index_or accepted.now.parts part d).image }
{
    let config = accepted.config();
    match str::from_utf8(config.parts.as_slice()[part].image.as_slice()) {
        Ok(name) => name,
        Err(_error) => unreachable!(),
    }
}

/// The description of the partition of that number, completed by the image in this file.
fn complete(
    alloc: Global,
    accepted: &Accepted,
    part: usize,
    file: &[u8],
    place: &[u8],
) -> Result<Desc, Stop>
    requires part { part < length accepted.now.parts }
    requires short { length file.now ≤ file_limit }
    ensures kept { (d : PartDef) → OnOk result (spec.image_fault accepted.now (slice_index_or accepted.now.parts part d) file.now ≡ None) }
    ensures value { (d : PartDef) → IfOk result (λ desc. desc ≡ spec.completed accepted.now (slice_index_or accepted.now.parts part d) file.now) }
    ensures broken { (d : PartDef) → IfErr result (λ stop. StopsBy place.now stop (spec.image_fault accepted.now (slice_index_or accepted.now.parts part d) file.now)) }
    ensures no_fault { IfErr result (λ stop. stop ≢ Stop.ReadFault) }
{
    let tree = guest_of(alloc, accepted, part)?;
    let raw_at = accepted.config().parts.as_slice()[part].image_at;
    match plan(alloc, file, raw_at) {
        Ok(image) => complete_by(alloc, accepted, part, file, image, tree.as_slice(), place),
        Err(fault) => Err(refused_image(alloc, fault, place)),
    }
}

/// The description of the partition of that number, completed by the image that this file is and by this tree.
fn complete_by(
    alloc: Global,
    accepted: &Accepted,
    part: usize,
    file: &[u8],
    image: Image,
    tree: &[u8],
    place: &[u8],
) -> Result<Desc, Stop>
    requires part { part < length accepted.now.parts }
    requires pieces { AreOf (length file.now) image.pieces }
    requires tree { length tree.now ≤ largest_blob }
    ensures kept { (d : PartDef) → OnOk result (loaded.first_fault (desc_of accepted.now (slice_index_or accepted.now.parts part d)) image tree.now ≡ None) }
    ensures value { (d : PartDef) → IfOk result (λ desc.
        desc ≡ loaded.described (desc_of accepted.now (slice_index_or accepted.now.parts part d)) file.now image tree.now) }
    ensures broken { (d : PartDef) → IfErr result (λ stop.
        StopsBy place.now stop (loaded.first_fault (desc_of accepted.now (slice_index_or accepted.now.parts part d)) image tree.now)) }
    ensures no_fault { IfErr result (λ stop. stop ≢ Stop.ReadFault) }
{
    descriptions_are_joined();
    let _config = accepted.config();
    let base = accepted.base(alloc, part)?;
    match describe(alloc, base, file, image, tree) {
        Ok(desc) => Ok(desc),
        Err(fault) => Err(refused_image(alloc, fault, place)),
    }
}
