use super::*;
use std::alloc::Global;
use std::test::Fail;
use tl_base::{Boxed, List};

// Unions: the types given and, behind the colon, the members of the union. A word in brackets is no plain name.
const UNIONS: &str = "
    : never
    nil : nil
    never : never
    integer : integer
    any : any
    value : value
    nil nil : nil
    never never : never
    nil never : nil
    never string : string
    nil integer : nil integer
    integer nil : integer nil
    true false : true false
    false true : false true
    boolean : true false
    boolean true : true false
    false boolean : false true
    boolean boolean : true false
    boolean nil : true false nil
    1 : 1
    1 2 : 1 2
    1 1 : 1
    1 2 1 : 1 2
    2 1 2 1 : 2 1
    1 integer : integer
    integer 1 : integer
    1 integer 2 : integer
    1 nil integer : nil integer
    1 nil 2 integer 1 : nil integer
    integer integer : integer
    'a' : 'a'
    'a' 'b' : 'a' 'b'
    'a' 'a' : 'a'
    'a' string : string
    string 'a' 'b' : string
    'a' integer : 'a' integer
    1 string : 1 string
    1 'a' integer string : integer string
    'a' 1 string 2 : 1 string 2
    nil any : any
    any nil : any
    any any : any
    value any : any
    any value : any
    value value : value
    value integer : value
    1 value 'a' : value
    never value : value
    never any : any
    integer? : integer nil
    integer? nil : integer nil
    nil integer? : nil integer
    1 integer? : integer nil
    'a' integer? 'b' : 'a' integer nil 'b'
    {} : {}
    {} {} : {}
    {} {x} : {} {x}
    {x} nil {x} : {x} nil
    {x} {x'} : {x} {x'}
    {x} {y} {x} : {x} {y}
    [i] [s] [i] : [i] [s]
    [i] integer : [i] integer
    I0 I1 I0 : I0 I1
    f nil f : f nil
    f g f : f g
    nil true 1 'a' f {} [i] I0 : nil true 1 'a' f {} [i] I0
";

fn text(alloc: Global, bytes: &[u8]) -> Result<Text, NoMemory> {
    Text::from_slice(alloc, bytes)
}

fn record(alloc: Global, name: &[u8], is_const: bool, ty: Ty) -> Result<Ty, NoMemory> {
    let mut fields = List::new(alloc);
    fields.push(Field {
        name: text(alloc, name)?,
        is_const,
        ty,
    })?;
    Ok(Ty::Rec(fields))
}

fn map(alloc: Global, key: Ty, value: Ty) -> Result<Ty, NoMemory> {
    Ok(Ty::Map(Boxed::new(alloc, key)?, Boxed::new(alloc, value)?))
}

fn tuple(alloc: Global, item: Option<Ty>, tail: Ty) -> Result<Tuple, NoMemory> {
    let mut items = List::new(alloc);
    if let Some(item) = item {
        items.push(item)?;
    }
    Ok(Tuple {
        items,
        tail: Boxed::new(alloc, tail)?,
    })
}

fn function(alloc: Global, item: Ty, tail: Ty) -> Result<Ty, NoMemory> {
    let mut tuples = List::new(alloc);
    tuples.push(tuple(alloc, Some(item), Ty::Nil)?)?;
    let func = Func {
        params: tuple(alloc, None, tail)?,
        results: Results { tuples },
    };
    Ok(Ty::Func(Boxed::new(alloc, func)?))
}

fn either(alloc: Global, first: Ty, second: Ty) -> Result<Ty, NoMemory> {
    let mut members = List::new(alloc);
    members.push(first)?;
    members.push(second)?;
    Ok(Ty::Union(members))
}

// The type that a word of the table stands for.
fn ty_of(alloc: Global, word: &str) -> Result<Ty, NoMemory> {
    Ok(match word {
        "nil" => Ty::Nil,
        "true" => Ty::True,
        "false" => Ty::False,
        "boolean" => boolean(alloc)?,
        "integer" => Ty::Int,
        "1" => Ty::IntLit(1),
        "2" => Ty::IntLit(2),
        "string" => Ty::Str,
        "'a'" => Ty::StrLit(text(alloc, b"a")?),
        "'b'" => Ty::StrLit(text(alloc, b"b")?),
        "value" => Ty::Value,
        "any" => Ty::Any,
        "integer?" => either(alloc, Ty::Int, Ty::Nil)?,
        "{}" => Ty::Rec(List::new(alloc)),
        "{x}" => record(alloc, b"x", false, Ty::Int)?,
        "{x'}" => record(alloc, b"x", true, Ty::Int)?,
        "{y}" => record(alloc, b"y", false, Ty::Int)?,
        "[i]" => map(alloc, Ty::Int, Ty::Nil)?,
        "[s]" => map(alloc, Ty::Str, Ty::Nil)?,
        "I0" => Ty::Iface(0),
        "I1" => Ty::Iface(1),
        "f" => function(alloc, Ty::Int, Ty::Any)?,
        "g" => function(alloc, Ty::Int, Ty::Nil)?,
        _ => Ty::Union(List::new(alloc)),
    })
}

fn types_of(alloc: Global, words: &str) -> Result<Vec<Ty>, NoMemory> {
    let mut types = Vec::new(alloc);
    for word in words.split_whitespace() {
        types.push(ty_of(alloc, word)?)?;
    }
    Ok(types)
}

// The type with these members, as they stand.
fn with_members(alloc: Global, words: &str) -> Result<Ty, NoMemory> {
    let mut members = types_of(alloc, words)?;
    if members.len() == 1 {
        if let Some(only) = members.pop() {
            return Ok(only);
        }
    }
    Ok(Ty::Union(List::from_vec(members)))
}

#[test]
fn unions_have_the_members_of_the_table(rt: HostRuntime) -> Result<(), Fail> {
    let alloc = rt.alloc();
    let mut rows = 0_u32;
    for line in UNIONS.lines() {
        if let Some((given, wanted)) = line.split_once(':') {
            let union = union_of(alloc, &types_of(alloc, given)?)?;
            let wanted = with_members(alloc, wanted)?;
            assert!(rt; same(&union, &wanted), "{line} gives {union:?}");
            rows = u32::saturating_add(rows, 1);
        }
    }
    assert_eq!(rt; rows, 66);
    Ok(())
}

// General forms: a type's members and, behind the colon, those of its general form.
const GENERALS: &str = "
    never : never
    nil : nil
    true : true false
    false : true false
    1 : integer
    'a' : string
    value : value
    {x} : {x}
    [i] : [i]
    I1 : I1
    f : f
    1 2 : integer
    1 nil 'a' : integer nil string
    nil false 1 : nil true false integer
    1 integer 'b' 'a' : integer string
";

#[test]
fn general_forms_are_those_of_the_table(rt: HostRuntime) -> Result<(), Fail> {
    let alloc = rt.alloc();
    for line in GENERALS.lines() {
        if let Some((given, wanted)) = line.split_once(':') {
            let form = general(alloc, &with_members(alloc, given)?)?;
            let wanted = with_members(alloc, wanted)?;
            assert!(rt; same(&form, &wanted), "{line} gives {form:?}");
        }
    }
    let literals = map(alloc, Ty::IntLit(1), Ty::True)?;
    assert!(rt; same(&general(alloc, &literals)?, &literals));
    Ok(())
}

#[test]
fn places_are_unions_over_the_tuples(rt: HostRuntime) -> Result<(), Fail> {
    let alloc = rt.alloc();
    let none = Results {
        tuples: List::new(alloc),
    };
    assert!(rt; same(&position(alloc, &none, 0)?, &with_members(alloc, "")?));
    let mut tuples = List::new(alloc);
    tuples.push(tuple(alloc, Some(Ty::True), Ty::Int)?)?;
    tuples.push(tuple(alloc, None, Ty::Str)?)?;
    let results = Results { tuples };
    for (index, wanted) in [
        (0, "true string nil"),
        (1, "integer nil string"),
        (u32::MAX, "integer nil string"),
    ] {
        let wanted = with_members(alloc, wanted)?;
        assert!(rt;
            same(&position(alloc, &results, index)?, &wanted),
            "at {index}"
        );
    }
    Ok(())
}

// A record of so many fields, so of one node more.
fn broad(alloc: Global, fields: usize) -> Result<Ty, NoMemory> {
    let name = text(alloc, b"x")?;
    let mut all = List::new(alloc);
    for _ in 0..fields {
        all.push(Field {
            name: name.share()?,
            is_const: false,
            ty: Ty::Nil,
        })?;
    }
    Ok(Ty::Rec(all))
}

// Maps in one another, of this depth.
fn deep(alloc: Global, depth: usize) -> Result<Ty, NoMemory> {
    let mut ty = Ty::Nil;
    for _ in 1..depth {
        ty = map(alloc, Ty::Int, ty)?;
    }
    Ok(ty)
}

#[test]
fn limits_hold_from_both_sides(rt: HostRuntime) -> Result<(), Fail> {
    let alloc = rt.alloc();
    let most = broad(alloc, 65535)?;
    assert_eq!(rt; size(&most), 65536);
    assert!(rt; same(&general(alloc, &most)?, &most));
    let more = broad(alloc, 65536)?;
    assert_eq!(rt; size(&more), 65537);
    assert!(rt; matches!(general(alloc, &more), Err(TyError::TooLarge)));
    // the union and `nil` beside the record are two nodes more
    for (fields, fits) in [(65533, true), (65534, false)] {
        let both = [broad(alloc, fields)?, Ty::Nil];
        assert_eq!(rt;
            union_of(alloc, &both).is_ok(),
            fits,
            "with {fields} fields"
        );
    }
    let deepest = deep(alloc, 100)?;
    assert_eq!(rt; depth(&deepest), 100);
    assert!(rt; same(&general(alloc, &deepest)?, &deepest));
    let deeper = deep(alloc, 101)?;
    assert_eq!(rt; depth(&deeper), 101);
    assert!(rt; matches!(general(alloc, &deeper), Err(TyError::TooLarge)));
    // a union is one deeper than its members
    for (depth, fits) in [(99, true), (100, false)] {
        let both = [deep(alloc, depth)?, Ty::Nil];
        assert_eq!(rt; union_of(alloc, &both).is_ok(), fits, "of depth {depth}");
    }
    Ok(())
}

#[test]
fn sizes_count_each_node(rt: HostRuntime) -> Result<(), Fail> {
    let alloc = rt.alloc();
    for (word, nodes, levels) in [
        ("nil", 1, 1),
        ("I0", 1, 1),
        ("{}", 1, 1),
        ("never", 1, 1),
        ("boolean", 3, 2),
        ("{x}", 2, 2),
        ("[i]", 3, 2),
        ("f", 4, 2),
    ] {
        let ty = ty_of(alloc, word)?;
        assert_eq!(rt; size(&ty), nodes, "{word}");
        assert_eq!(rt; depth(&ty), levels, "{word}");
        assert!(rt; same(&ty.copy(alloc)?, &ty), "{word}");
    }
    Ok(())
}
