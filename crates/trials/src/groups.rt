ghost use Rattle.std.specs.Prelude.{All, IfOk, IfSome};
ghost use Rattle.diff_map.specs.Copies.{AreImages};

use crate::call::Call;
use crate::page::Page;
use crate::plan::Plan;
use crate::stopped::{Done, Stopped};
use crate::{grouped, making};
use cow_volume::{CowGroup, ResumeFault};
use diff_area::Area;
use std::alloc::Global;
use volume_device::MemDevice;
use vss_catalog::Catalog;
use vss_names::{Numbers, Text};

/// The subject `cow`: the group of volumes that the lines are about.
#[derive(Drop)]
pub struct Groups {
    pub group: Option<CowGroup<MemDevice>>,
}

/// The names in a catalog of the first volumes.
const LETTERS: &[u8; 24] = b"CDEFGHIJKLMNOPQRSTUVWXYZ";

/// So many names.
fn names(alloc: Global, count: u32) -> Result<Vec<Text>, Stopped> {
    let mut names = Vec::new(alloc);
    for v in 0..count as usize {
        let letter = LETTERS.get(v).ok_or(Stopped)?;
        names.push(Text::copy(alloc, &[*letter])?)?;
    }
    Ok(names)
}

/// The bytes of the catalog of a group.
fn catalog_of(alloc: Global, group: &CowGroup<MemDevice>) -> Result<Text, Stopped> {
    let names = names(alloc, group.volumes())?;
    if !Catalog::are_names_for(&names, group) {
        return Err(Stopped);
    }
    Ok(Catalog::of_group(alloc, &names, group)?.encode(alloc)?)
}

/// The lists of the catalog that bytes say; shows why they say none.
fn lists_in(page: &mut Page, bytes: &[u8]) -> Result<Option<Vec<Numbers>>, Stopped>
    ensures { IfOk result (λ some. IfSome some (λ lists. All AreImages lists.items)) }
{
    match Catalog::decode(page.alloc(), bytes) {
        Ok(catalog) => Ok(Some(catalog.lists(page.alloc())?)),
        Err(fault) => {
            page.tell(&Err::<(), _>(fault));
            Ok(None)
        }
    }
}

/// The lists of the catalog of a group, whose bytes are shown, two digits each, or of other bytes that are given so.
fn lists_of(
    page: &mut Page,
    group: &CowGroup<MemDevice>,
    digits: &str,
) -> Result<Option<Vec<Numbers>>, Stopped>
    ensures { IfOk result (λ some. IfSome some (λ lists. All AreImages lists.items)) }
{
    let catalog = catalog_of(page.alloc(), group)?;
    let given = hex::decode(page.alloc(), digits).map_err(|_| Stopped)?;
    page.say(hex::encode(page.alloc(), catalog.bytes())?.as_bytes());
    if given.is_empty() {
        lists_in(page, catalog.bytes())
    } else {
        lists_in(page, &given)
    }
}

/// A group over these devices and this area is taken up with these lists.
fn resumed(
    alloc: Global,
    devices: Vec<MemDevice>,
    area: Area<MemDevice>,
    lists: &[Numbers],
) -> Result<Result<CowGroup<MemDevice>, ResumeFault>, Stopped>
    requires { All AreImages lists.now }
{
    if lists.len() != area.volumes() as usize || !making::fit(&devices, &area) {
        return Err(Stopped);
    }
    Ok(CowGroup::resume(alloc, devices, area, lists))
}

/// The area of a group is loaded from its device, and the group taken up with these lists; shows what the last of both answered.
fn reopened(
    page: &mut Page,
    group: CowGroup<MemDevice>,
    lists: &[Numbers],
) -> Result<Option<CowGroup<MemDevice>>, Stopped>
    requires { All AreImages lists.now }
{
    let (devices, area) = group.into_parts();
    let area = match Area::load(page.alloc(), area.into_device()) {
        Ok(area) => area,
        Err(unopened) => {
            page.tell(&Err::<(), _>(unopened.fault));
            return Ok(None);
        }
    };
    let resumed = resumed(page.alloc(), devices, area, lists)?;
    page.tell(&resumed.as_ref().map(|_| ()));
    Ok(resumed.ok())
}

impl Groups {
    /// Makes the group that a line asks for.
    fn begin(&mut self, alloc: Global, plan: &mut Plan, call: Call<'_>) -> Done {
        let blocks = call.numbers.get(1..).ok_or(Stopped)?;
        let group = making::group(alloc, plan, call.number(0), blocks)?;
        let _ = self.group.insert(group);
        plan.clear();
        Ok(())
    }

    /// Takes the group apart, and takes it up again with the lists of its catalog, or of other bytes that are given in digits.
    fn again(&mut self, page: &mut Page, digits: &str) -> Done {
        let group = self.group.take().ok_or(Stopped)?;
        if let Some(lists) = lists_of(page, &group, digits)? {
            self.group = reopened(page, group, &lists)?;
        }
        Ok(())
    }

    /// Takes a line.
    pub fn take(&mut self, page: &mut Page, plan: &mut Plan, call: Call<'_>) -> Done {
        match call.word {
            "group" => self.begin(page.alloc(), plan, call),
            "again" => self.again(page, call.rest),
            _ => match &mut self.group {
                Some(group) => grouped::make(page, group, call),
                None => Err(Stopped),
            },
        }
    }
}
