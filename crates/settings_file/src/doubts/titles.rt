//! Points of translation rows that are no destinations.

ghost use Rattle.std.specs.Prelude.{◌≡◌, ◌++◌, OnOk};
ghost use Rattle.settings_file.specs.Doubts.{leads_nowhere, backup_leads_nowhere, each_key, doubtful_title};

use crate::doubts::doubt_if;
use settings::{Key, Settings, TitleRow};
use signalling_types::PointCode;
use std::alloc::AllocError;

/// Whether a point is neither a destination nor the node's own.
fn leads_nowhere(settings: &Settings, point: PointCode) -> bool
    ensures { result ≡ leads_nowhere settings.now point }
{
    point != settings.own() && settings.destination(point).is_none()
}

/// The same of a backup, if there is one.
fn backup_leads_nowhere(settings: &Settings, backup: Option<PointCode>) -> bool
    ensures { result ≡ backup_leads_nowhere settings.now backup }
{
    match backup {
        Some(point) => leads_nowhere(settings, point),
        None => false,
    }
}

/// Puts the keys of a translation row behind others whose points are no destinations.
fn doubt_title(
    settings: &Settings,
    i: usize,
    title: &TitleRow,
    doubts: &mut Vec<Key>,
) -> Result<(), AllocError>
    ensures { OnOk result (doubts.new.items ≡ doubts.old.items ++ doubtful_title settings.now i title.now) }
{
    doubt_if(
        leads_nowhere(settings, title.point()),
        doubts,
        Key::TitlePoint(i),
    )?;
    doubt_if(
        backup_leads_nowhere(settings, title.backup()),
        doubts,
        Key::TitleBackup(i),
    )
}

/// The same of each of these rows.
fn doubt_each_title(
    settings: &Settings,
    titles: &[TitleRow],
    doubts: &mut Vec<Key>,
) -> Result<(), AllocError>
    ensures { OnOk result (doubts.new.items ≡ doubts.old.items ++ each_key (doubtful_title settings.now) 0 titles.now) }
{
    for i in 0..titles.len() {
        doubt_title(settings, i, &titles[i], doubts)?;
    }
    Ok(())
}

/// The same of all rows.
pub(crate) fn doubt_titles(settings: &Settings, doubts: &mut Vec<Key>) -> Result<(), AllocError>
    ensures { OnOk result (doubts.new.items
        ≡ doubts.old.items ++ each_key (doubtful_title settings.now) 0 settings.now.titles) }
{
    doubt_each_title(settings, settings.titles(), doubts)
}
