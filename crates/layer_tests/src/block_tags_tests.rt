//! Each call once, over a window of 1024 bytes.
ghost use Rattle.std.specs.Prelude.{[], ◌∷◌};
ghost use Rattle.block_tags.specs.Lists.{free_tile};
ghost use Rattle.block_tags.specs.Windows.{EncodesTiles};

use crate::checks::{holds, same};
use block_tags::{
    BadTag, Role, Tile, append_free, check, drop_last, first, lay, merge_next, next, previous, red,
    set_red, set_use, split, tile_at,
};
use raw_region::{RawRegion, Window};
use std::process::Abort;

/// Returns a window of 1024 bytes, of which one free tile fills all but the header and the end tag.
fn laid<R: Abort + AllocGlobal>(rt: &R) -> Window
    ensures { EncodesTiles result (free_tile 128 880 ∷ []) }
{
    let Ok(region) = RawRegion::new(rt.alloc(), 1024) else {
        panic!(rt; "out of memory");
    };
    let mut window = Window::new(region, 0, 1024);
    lay(&mut window);
    window
}

fn free(offset: u64, len: u64) -> Tile {
    Tile {
        offset,
        len,
        use_of: None,
        red: false,
    }
}

#[test]
fn splits_and_joins(rt: HostRuntime) {
    let mut window = laid(&rt);
    same(&rt, first(&window), Some(free(128, 880)));
    split(&mut window, 128, 64);
    same(&rt, next(&window, 128), Some(free(192, 816)));
    same(&rt, previous(&window, 192), Some(free(128, 64)));
    same(&rt, check(&window), Err(BadTag));
    merge_next(&mut window, 128);
    same(&rt, first(&window), Some(free(128, 880)));
    drop(window);
}

#[test]
fn gives_use_and_colour(rt: HostRuntime) {
    let mut window = laid(&rt);
    set_use(&mut window, 128, Some(Role::Node));
    holds(&rt, !red(&window, 128));
    set_red(&mut window, 128, true);
    holds(&rt, red(&window, 128));
    let wanted = Tile {
        offset: 128,
        len: 880,
        use_of: Some(Role::Node),
        red: true,
    };
    same(&rt, tile_at(&window, 128), wanted);
    same(&rt, check(&window), Ok(()));
    drop(window);
}

#[test]
fn moves_the_end(rt: HostRuntime) {
    let mut window = laid(&rt);
    let size = drop_last(&mut window);
    same(&rt, size, 144);
    append_free(&mut window, size);
    same(&rt, first(&window), Some(free(128, 880)));
    drop(window);
}
