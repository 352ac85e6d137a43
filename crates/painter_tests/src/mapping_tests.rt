// Where columns lie on their surfaces.
use crate::shapes::blit;
use painter::{Ablit, Atile, Fill, Mapping, Tile, Transform};
use surface::Format;

fn tile(xscroll: u16, yscroll: u16) -> Tile {
    Tile {
        s: 0,
        poff: 0,
        yscroll,
        xscroll,
        tilemap: 0,
        pfs: 0,
        tileset: 0,
        format: Format::P4,
    }
}

fn transform(a00: i16, a01: i16) -> Transform {
    Transform {
        b1: 0,
        b0: 0,
        a01,
        a00,
        a11: 0,
        a10: 0,
    }
}

#[test]
fn a_blit_goes_round_the_right_edge(rt: HostRuntime) {
    let square = blit(1020, 0);
    assert_eq!(rt; square.place(0, 0), Some((4, 0)));
    assert_eq!(rt; square.place(7, 3), Some((7, 7)));
    assert_eq!(rt; square.place(0, 4), None);
    assert_eq!(rt; square.place(8, 0), None);
    assert_eq!(rt; square.place(0, 511), None);
}

#[test]
fn columns_outside_are_counted(rt: HostRuntime) {
    let square = blit(100, 0);
    assert_eq!(rt; square.columns_outside(0, 0), 99);
    assert_eq!(rt; square.columns_outside(0, 99), 0);
    assert_eq!(rt; square.columns_outside(0, 107), 1016);
    assert_eq!(rt; square.columns_outside(8, 0), 1023);
    assert_eq!(rt; tile(5, 5).columns_outside(0, 0), 0);
}

#[test]
fn a_fill_has_one_place(rt: HostRuntime) {
    assert_eq!(rt; Fill { colour: 1 }.place(1023, 511), Some((0, 0)));
}

#[test]
fn tiles_scroll_both_ways(rt: HostRuntime) {
    assert_eq!(rt; tile(1, 2).place(0, 0), Some((1023, 1022)));
    assert_eq!(rt; tile(1, 2).place(3, 3), Some((2, 1)));
}

// With a01 = -256 and dy = 1, u is 1023, which the surface of side 8 folds to 7.
#[test]
fn an_ablit_may_come_to_a_negative_place(rt: HostRuntime) {
    let turned = Ablit {
        blit: blit(0, 0),
        half: false,
        transform: transform(0, -256),
    };
    assert_eq!(rt; turned.place(1, 0), Some((1023, 0)));
    assert_eq!(rt; turned.place(0, 8), None);
}

// Half of a distance of -1 is 1023 and a half: the distance is not taken mod 1024 before the matrix.
#[test]
fn distances_of_an_atile_stay_signed(rt: HostRuntime) {
    let halved = Atile {
        tile: tile(1, 0),
        transform: transform(128, 0),
    };
    assert_eq!(rt; halved.place(0, 0), Some((1023, 0)));
    assert_eq!(rt; halved.place(0, 1), Some((0, 0)));
    assert_eq!(rt; halved.place(0, 3), Some((1, 0)));
}

#[test]
fn shifts_are_in_sixty_fourths(rt: HostRuntime) {
    let shifted = Transform {
        b1: 128,
        b0: 65535,
        ..Transform::identity()
    };
    let field = Atile {
        tile: tile(0, 0),
        transform: shifted,
    };
    assert_eq!(rt; field.place(5, 0), Some((1023, 7)));
    assert_eq!(rt; field.place(0, 1), Some((0, 2)));
}
