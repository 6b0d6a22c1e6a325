//! Which texts spell shapes.
use sg_gen::Shape;

/// Texts at the ends of the ranges, and the shapes that they spell.
static SPELLED: [(&str, Shape); 12] = [
    (
        "free-1-0",
        Shape::Free {
            targets: 1,
            patrols: 0,
        },
    ),
    (
        "free-10000-200",
        Shape::Free {
            targets: 10_000,
            patrols: 200,
        },
    ),
    (
        "free-10-200",
        Shape::Free {
            targets: 10,
            patrols: 200,
        },
    ),
    (
        "blocks-1-2-1",
        Shape::Blocks {
            resources: 1,
            width: 2,
            span: 1,
        },
    ),
    (
        "blocks-8-10-1000",
        Shape::Blocks {
            resources: 8,
            width: 10,
            span: 1_000,
        },
    ),
    (
        "blocks-1-10-1",
        Shape::Blocks {
            resources: 1,
            width: 10,
            span: 1,
        },
    ),
    (
        "matrix-1-1-1",
        Shape::Table {
            rows: 1,
            actions: 1,
            types: 1,
        },
    ),
    (
        "matrix-4096-48-1",
        Shape::Table {
            rows: 4_096,
            actions: 48,
            types: 1,
        },
    ),
    (
        "matrix-4096-6-8",
        Shape::Table {
            rows: 4_096,
            actions: 6,
            types: 8,
        },
    ),
    (
        "matrix-3125-64-1",
        Shape::Table {
            rows: 3_125,
            actions: 64,
            types: 1,
        },
    ),
    (
        "matrix-3125-8-8",
        Shape::Table {
            rows: 3_125,
            actions: 8,
            types: 8,
        },
    ),
    (
        "matrix-390-64-8",
        Shape::Table {
            rows: 390,
            actions: 64,
            types: 8,
        },
    ),
];

/// Texts one past a range, or spelled otherwise.
static UNSPELLED: [&str; 44] = [
    "",
    "-",
    "free",
    "free-",
    "free-1",
    "free-1-",
    "free--1",
    "free-0-0",
    "free-10001-0",
    "free-1-201",
    "free-1-0-0",
    "free-01-0",
    "free-1-00",
    "free-+1-0",
    "free-1--0",
    "free-1-0 ",
    " free-1-0",
    "Free-1-0",
    "free_1_0",
    "free-18446744073709551617-0",
    "free-99999999999999999999999999-0",
    "blocks-0-2-1",
    "blocks-9-2-1",
    "blocks-1-1-1",
    "blocks-1-11-1",
    "blocks-1-2-0",
    "blocks-1-2-1001",
    "blocks-01-2-1",
    "blocks-1-2",
    "blocks-1-2-1-1",
    "Blocks-1-2-1",
    "block-1-2-1",
    "matrix-0-1-1",
    "matrix-4097-1-1",
    "matrix-1-0-1",
    "matrix-1-65-1",
    "matrix-1-1-0",
    "matrix-1-1-9",
    "matrix-4096-64-1",
    "matrix-3126-64-1",
    "matrix-391-64-8",
    "matrix-4096-49-1",
    "matrix-1-1",
    "table-1-1-1",
];

/// The first text, counted from 0, that is read otherwise.
fn first_misread(texts: &[(&str, Shape)]) -> Option<usize> {
    for k in 0..texts.len() {
        let (text, shape) = texts[k];
        if Shape::read(text) != Some(shape) {
            return Some(k);
        }
    }
    None
}

/// The first text, counted from 0, that is read as a shape.
fn first_read(texts: &[&str]) -> Option<usize> {
    for k in 0..texts.len() {
        if Shape::read(texts[k]) != None {
            return Some(k);
        }
    }
    None
}

#[test]
fn reads_shapes(rt: HostRuntime) {
    assert_eq!(rt; first_misread(&SPELLED), None);
}

#[test]
fn reads_no_other_texts(rt: HostRuntime) {
    assert_eq!(rt; first_read(&UNSPELLED), None);
}
