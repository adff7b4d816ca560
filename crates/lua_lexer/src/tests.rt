//! Texts with their tokens or refusals. The tables were made by an independent reading of Lua's lexical rules with regular
//! expressions, in Python.

use crate::letters::hex_value;
use crate::*;
use std::alloc::{AllocError, Global};
use std::process::Abort;
use std::test::Fail;
use tl_base::Failure;

// Each text, with `^` before the two hexadecimal digits of a byte, and its tokens with place and span, or its refusal.
const SYMBOLS: &str = "
    + Plus@1:1+0-1;End@1:2+1-1
    - Minus@1:1+0-1;End@1:2+1-1
    * Star@1:1+0-1;End@1:2+1-1
    / Slash@1:1+0-1;End@1:2+1-1
    % Percent@1:1+0-1;End@1:2+1-1
    ^5E Caret@1:1+0-1;End@1:2+1-1
    # End@1:2+1-1
    & Ampersand@1:1+0-1;End@1:2+1-1
    ~ Tilde@1:1+0-1;End@1:2+1-1
    | Pipe@1:1+0-1;End@1:2+1-1
    << ShiftLeft@1:1+0-2;End@1:3+2-2
    >> ShiftRight@1:1+0-2;End@1:3+2-2
    // DoubleSlash@1:1+0-2;End@1:3+2-2
    == Equal@1:1+0-2;End@1:3+2-2
    ~= NotEqual@1:1+0-2;End@1:3+2-2
    <= LessEqual@1:1+0-2;End@1:3+2-2
    >= GreaterEqual@1:1+0-2;End@1:3+2-2
    < Less@1:1+0-1;End@1:2+1-1
    > Greater@1:1+0-1;End@1:2+1-1
    = Assign@1:1+0-1;End@1:2+1-1
    ( OpenParen@1:1+0-1;End@1:2+1-1
    ) CloseParen@1:1+0-1;End@1:2+1-1
    { OpenBrace@1:1+0-1;End@1:2+1-1
    } CloseBrace@1:1+0-1;End@1:2+1-1
    [ OpenBracket@1:1+0-1;End@1:2+1-1
    ] CloseBracket@1:1+0-1;End@1:2+1-1
    :: DoubleColon@1:1+0-2;End@1:3+2-2
    ; Semicolon@1:1+0-1;End@1:2+1-1
    : Colon@1:1+0-1;End@1:2+1-1
    , Comma@1:1+0-1;End@1:2+1-1
    . Dot@1:1+0-1;End@1:2+1-1
    .. Concat@1:1+0-2;End@1:3+2-2
    ... Dots@1:1+0-3;End@1:4+3-3
    ? Question@1:1+0-1;End@1:2+1-1
    -> Arrow@1:1+0-2;End@1:3+2-2
";

const NEIGHBOURS: &str = "
    <<= ShiftLeft@1:1+0-2;Assign@1:3+2-3;End@1:4+3-3
    <== LessEqual@1:1+0-2;Assign@1:3+2-3;End@1:4+3-3
    <<< ShiftLeft@1:1+0-2;Less@1:3+2-3;End@1:4+3-3
    >>= ShiftRight@1:1+0-2;Assign@1:3+2-3;End@1:4+3-3
    >== GreaterEqual@1:1+0-2;Assign@1:3+2-3;End@1:4+3-3
    >>> ShiftRight@1:1+0-2;Greater@1:3+2-3;End@1:4+3-3
    === Equal@1:1+0-2;Assign@1:3+2-3;End@1:4+3-3
    ==== Equal@1:1+0-2;Equal@1:3+2-4;End@1:5+4-4
    ~== NotEqual@1:1+0-2;Assign@1:3+2-3;End@1:4+3-3
    ~=~ NotEqual@1:1+0-2;Tilde@1:3+2-3;End@1:4+3-3
    ~~= Tilde@1:1+0-1;NotEqual@1:2+1-3;End@1:4+3-3
    //= DoubleSlash@1:1+0-2;Assign@1:3+2-3;End@1:4+3-3
    /// DoubleSlash@1:1+0-2;Slash@1:3+2-3;End@1:4+3-3
    ::: DoubleColon@1:1+0-2;Colon@1:3+2-3;End@1:4+3-3
    :::: DoubleColon@1:1+0-2;DoubleColon@1:3+2-4;End@1:5+4-4
    .. Concat@1:1+0-2;End@1:3+2-2
    .... Dots@1:1+0-3;Dot@1:4+3-4;End@1:5+4-4
    ..... Dots@1:1+0-3;Concat@1:4+3-5;End@1:6+5-5
    ...... Dots@1:1+0-3;Dots@1:4+3-6;End@1:7+6-6
    -> Arrow@1:1+0-2;End@1:3+2-2
    -->x End@1:5+4-4
    <- Less@1:1+0-1;Minus@1:2+1-2;End@1:3+2-2
    => Assign@1:1+0-1;Greater@1:2+1-2;End@1:3+2-2
    =>= Assign@1:1+0-1;GreaterEqual@1:2+1-3;End@1:4+3-3
    >- Greater@1:1+0-1;Minus@1:2+1-2;End@1:3+2-2
    ->> Arrow@1:1+0-2;Greater@1:3+2-3;End@1:4+3-3
    [= OpenBracket@1:1+0-1;Assign@1:2+1-2;End@1:3+2-2
    [== OpenBracket@1:1+0-1;Equal@1:2+1-3;End@1:4+3-3
    ]= CloseBracket@1:1+0-1;Assign@1:2+1-2;End@1:3+2-2
    ]] CloseBracket@1:1+0-1;CloseBracket@1:2+1-2;End@1:3+2-2
    [] OpenBracket@1:1+0-1;CloseBracket@1:2+1-2;End@1:3+2-2
    {} OpenBrace@1:1+0-1;CloseBrace@1:2+1-2;End@1:3+2-2
    () OpenParen@1:1+0-1;CloseParen@1:2+1-2;End@1:3+2-2
    +- Plus@1:1+0-1;Minus@1:2+1-2;End@1:3+2-2
    -+ Minus@1:1+0-1;Plus@1:2+1-2;End@1:3+2-2
    *- Star@1:1+0-1;Minus@1:2+1-2;End@1:3+2-2
    #~ End@1:3+2-2
    ?? Question@1:1+0-1;Question@1:2+1-2;End@1:3+2-2
    ?-> Question@1:1+0-1;Arrow@1:2+1-3;End@1:4+3-3
    &| Ampersand@1:1+0-1;Pipe@1:2+1-2;End@1:3+2-2
    ^5E- Caret@1:1+0-1;Minus@1:2+1-2;End@1:3+2-2
    %% Percent@1:1+0-1;Percent@1:2+1-2;End@1:3+2-2
    ;; Semicolon@1:1+0-1;Semicolon@1:2+1-2;End@1:3+2-2
    ,, Comma@1:1+0-1;Comma@1:2+1-2;End@1:3+2-2
    a.b Name(a)@1:1+0-1;Dot@1:2+1-2;Name(b)@1:3+2-3;End@1:4+3-3
    a..b Name(a)@1:1+0-1;Concat@1:2+1-3;Name(b)@1:4+3-4;End@1:5+4-4
    a...b Name(a)@1:1+0-1;Dots@1:2+1-4;Name(b)@1:5+4-5;End@1:6+5-5
    a:b Name(a)@1:1+0-1;Colon@1:2+1-2;Name(b)@1:3+2-3;End@1:4+3-3
    a::b Name(a)@1:1+0-1;DoubleColon@1:2+1-3;Name(b)@1:4+3-4;End@1:5+4-4
    .a Dot@1:1+0-1;Name(a)@1:2+1-2;End@1:3+2-2
    ..5 Concat@1:1+0-2;Int(5)@1:3+2-3;End@1:4+3-3
    a.-b Name(a)@1:1+0-1;Dot@1:2+1-2;Minus@1:3+2-3;Name(b)@1:4+3-4;End@1:5+4-4
    [=a[ OpenBracket@1:1+0-1;Assign@1:2+1-2;Name(a)@1:3+2-3;OpenBracket@1:4+3-4;End@1:5+4-4
    ]==] CloseBracket@1:1+0-1;Equal@1:2+1-3;CloseBracket@1:4+3-4;End@1:5+4-4
    =~= Assign@1:1+0-1;NotEqual@1:2+1-3;End@1:4+3-3
    =<= Assign@1:1+0-1;LessEqual@1:2+1-3;End@1:4+3-3
    =>> Assign@1:1+0-1;ShiftRight@1:2+1-3;End@1:4+3-3
    ~> Tilde@1:1+0-1;Greater@1:2+1-2;End@1:3+2-2
    ~< Tilde@1:1+0-1;Less@1:2+1-2;End@1:3+2-2
    </ Less@1:1+0-1;Slash@1:2+1-2;End@1:3+2-2
    >/ Greater@1:1+0-1;Slash@1:2+1-2;End@1:3+2-2
    /= Slash@1:1+0-1;Assign@1:2+1-2;End@1:3+2-2
    <~ Less@1:1+0-1;Tilde@1:2+1-2;End@1:3+2-2
    -= Minus@1:1+0-1;Assign@1:2+1-2;End@1:3+2-2
    += Plus@1:1+0-1;Assign@1:2+1-2;End@1:3+2-2
    x^20#~y Name(x)@1:1+0-1;Hash@1:3+2-3;Tilde@1:4+3-4;Name(y)@1:5+4-5;End@1:6+5-5
    ^20# Hash@1:2+1-2;End@1:3+2-2
    x# Name(x)@1:1+0-1;Hash@1:2+1-2;End@1:3+2-2
";

const WORDS: &str = "
    and And@1:1+0-3;End@1:4+3-3
    break Break@1:1+0-5;End@1:6+5-5
    do Do@1:1+0-2;End@1:3+2-2
    else Else@1:1+0-4;End@1:5+4-4
    elseif Elseif@1:1+0-6;End@1:7+6-6
    end End@1:1+0-3;End@1:4+3-3
    false False@1:1+0-5;End@1:6+5-5
    for For@1:1+0-3;End@1:4+3-3
    function Function@1:1+0-8;End@1:9+8-8
    goto Goto@1:1+0-4;End@1:5+4-4
    if If@1:1+0-2;End@1:3+2-2
    in In@1:1+0-2;End@1:3+2-2
    local Local@1:1+0-5;End@1:6+5-5
    nil Nil@1:1+0-3;End@1:4+3-3
    not Not@1:1+0-3;End@1:4+3-3
    or Or@1:1+0-2;End@1:3+2-2
    repeat Repeat@1:1+0-6;End@1:7+6-6
    return Return@1:1+0-6;End@1:7+6-6
    then Then@1:1+0-4;End@1:5+4-4
    true True@1:1+0-4;End@1:5+4-4
    until Until@1:1+0-5;End@1:6+5-5
    while While@1:1+0-5;End@1:6+5-5
    And Name(And)@1:1+0-3;End@1:4+3-3
    els Name(els)@1:1+0-3;End@1:4+3-3
    elsei Name(elsei)@1:1+0-5;End@1:6+5-5
    elseiff Name(elseiff)@1:1+0-7;End@1:8+7-7
    en Name(en)@1:1+0-2;End@1:3+2-2
    endd Name(endd)@1:1+0-4;End@1:5+4-4
    nill Name(nill)@1:1+0-4;End@1:5+4-4
    _ Name(_)@1:1+0-1;End@1:2+1-1
    _and Name(_and)@1:1+0-4;End@1:5+4-4
    and_ Name(and_)@1:1+0-4;End@1:5+4-4
    and1 Name(and1)@1:1+0-4;End@1:5+4-4
    x1_y Name(x1_y)@1:1+0-4;End@1:5+4-4
    Z Name(Z)@1:1+0-1;End@1:2+1-1
    functio Name(functio)@1:1+0-7;End@1:8+7-7
    trues Name(trues)@1:1+0-5;End@1:6+5-5
    untill Name(untill)@1:1+0-6;End@1:7+6-6
    a Name(a)@1:1+0-1;End@1:2+1-1
    b Name(b)@1:1+0-1;End@1:2+1-1
    A_b9 Name(A_b9)@1:1+0-4;End@1:5+4-4
    goto1 Name(goto1)@1:1+0-5;End@1:6+5-5
    iff Name(iff)@1:1+0-3;End@1:4+3-3
    i Name(i)@1:1+0-1;End@1:2+1-1
";

const NUMERALS: &str = "
    0 Int(0)@1:1+0-1;End@1:2+1-1
    7 Int(7)@1:1+0-1;End@1:2+1-1
    007 Int(7)@1:1+0-3;End@1:4+3-3
    12 Int(12)@1:1+0-2;End@1:3+2-2
    9223372036854775807 Int(9223372036854775807)@1:1+0-19;End@1:20+19-19
    9223372036854775808 L4@1:1
    99999999999999999999 L4@1:1
    0x0 Int(0)@1:1+0-3;End@1:4+3-3
    0X1f Int(31)@1:1+0-4;End@1:5+4-4
    0xFFFFFFFFFFFFFFFF Int(-1)@1:1+0-18;End@1:19+18-18
    0x8000000000000000 Int(-9223372036854775808)@1:1+0-18;End@1:19+18-18
    0x7fffffffffffffff Int(9223372036854775807)@1:1+0-18;End@1:19+18-18
    0x1ffffffffffffffff Int(-1)@1:1+0-19;End@1:20+19-19
    0x10000000000000000 Int(0)@1:1+0-19;End@1:20+19-19
    0xABCDEFabcdef Int(188900977659375)@1:1+0-14;End@1:15+14-14
    0x L4@1:1
    0xg L4@1:1
    0xp+1 L4@1:1
    0x1e+1 Int(30)@1:1+0-4;Plus@1:5+4-5;Int(1)@1:6+5-6;End@1:7+6-6
    0x1p+1 L4@1:1
    0x1p1 L4@1:1
    1e5 L4@1:1
    1e+5 L4@1:1
    1e-5 L4@1:1
    1e+ L4@1:1
    1E+1 L4@1:1
    1+1 Int(1)@1:1+0-1;Plus@1:2+1-2;Int(1)@1:3+2-3;End@1:4+3-3
    1-1 Int(1)@1:1+0-1;Minus@1:2+1-2;Int(1)@1:3+2-3;End@1:4+3-3
    12ab L4@1:1
    3..2 L4@1:1
    1..2 L4@1:1
    1.5 L4@1:1
    .5 L4@1:1
    .5e+1 L4@1:1
    5. L4@1:1
    1_000 L4@1:1
    1e+1e-1 L4@1:1
    0x.1 L4@1:1
    1e*2 L4@1:1
    0b1 L4@1:1
    00x1 L4@1:1
    1p+1 L4@1:1
    08 Int(8)@1:1+0-2;End@1:3+2-2
    a1e+5 Name(a1e)@1:1+0-3;Plus@1:4+3-4;Int(5)@1:5+4-5;End@1:6+5-5
";

const STRINGS: &str = "
    ^22^22 Str()@1:1+0-2;End@1:3+2-2
    '' Str()@1:1+0-2;End@1:3+2-2
    ^22a^22 Str(97.)@1:1+0-3;End@1:4+3-3
    'a^22b' Str(97.34.98.)@1:1+0-5;End@1:6+5-5
    ^22a'b^22 Str(97.39.98.)@1:1+0-5;End@1:6+5-5
    ^22^5Ca^5Cb^5Cf^5Cn^5Cr^5Ct^5Cv^5C^5C^5C^22^5C'^22 Str(7.8.12.10.13.9.11.92.34.39.)@1:1+0-22;End@1:23+22-22
    ^22^5C^0A^22 Str(10.)@1:1+0-4;End@2:2+4-4
    ^22^5C^0D^22 Str(10.)@1:1+0-4;End@2:2+4-4
    ^22^5C^0D^0A^22 Str(10.)@1:1+0-5;End@2:2+5-5
    ^22^5C^0A^0D^22 Str(10.)@1:1+0-5;End@2:2+5-5
    ^22^5C^0A^0A^22 L2@1:1
    ^22^5C^0D^0Ax^22^20y Str(10.120.)@1:1+0-6;Name(y)@2:4+7-8;End@2:5+8-8
    ^22a^5Cz^20^20^0A^09^0D^0A^20b^22 Str(97.98.)@1:1+0-13;End@3:4+13-13
    ^22^5Cz^22 Str()@1:1+0-4;End@1:5+4-4
    ^22^5Cz^0A L2@1:1
    ^22^5Cx41^5Cx7f^5CxFf^22 Str(65.127.255.)@1:1+0-14;End@1:15+14-14
    ^22^5Cx4^22 L3@1:2
    ^22^5Cxg1^22 L3@1:2
    ^22^5Cx4g^22 L3@1:2
    ^22^5Cx L2@1:1
    ^22^5C0^22 Str(0.)@1:1+0-4;End@1:5+4-4
    ^22^5C9a^22 Str(9.97.)@1:1+0-5;End@1:6+5-5
    ^22^5C65^5C066^5C0677^22 Str(65.66.67.55.)@1:1+0-14;End@1:15+14-14
    ^22^5C255^22 Str(255.)@1:1+0-6;End@1:7+6-6
    ^22^5C256^22 L3@1:2
    ^22^5C300^22 L3@1:2
    ^22^5C999^22 L3@1:2
    ^22^5C25^22 Str(25.)@1:1+0-5;End@1:6+5-5
    ^22^5C2555^22 Str(255.53.)@1:1+0-7;End@1:8+7-7
    ^22^5Cu{0}^22 Str(0.)@1:1+0-7;End@1:8+7-7
    ^22^5Cu{7F}^22 Str(127.)@1:1+0-8;End@1:9+8-8
    ^22^5Cu{80}^22 Str(194.128.)@1:1+0-8;End@1:9+8-8
    ^22^5Cu{7FF}^22 Str(223.191.)@1:1+0-9;End@1:10+9-9
    ^22^5Cu{800}^22 Str(224.160.128.)@1:1+0-9;End@1:10+9-9
    ^22^5Cu{FFFF}^22 Str(239.191.191.)@1:1+0-10;End@1:11+10-10
    ^22^5Cu{10000}^22 Str(240.144.128.128.)@1:1+0-11;End@1:12+11-11
    ^22^5Cu{10FFFF}^22 Str(244.143.191.191.)@1:1+0-12;End@1:13+12-12
    ^22^5Cu{110000}^22 L3@1:2
    ^22^5Cu{d800}^22 Str(237.160.128.)@1:1+0-10;End@1:11+10-10
    ^22^5Cu{dfff}^22 Str(237.191.191.)@1:1+0-10;End@1:11+10-10
    ^22^5Cu{00000041}^22 Str(65.)@1:1+0-14;End@1:15+14-14
    ^22^5Cu{}^22 L3@1:2
    ^22^5Cu{41^22 L3@1:2
    ^22^5Cu41^22 L3@1:2
    ^22^5Cu{4g}^22 L3@1:2
    ^22^5Cu^22 L3@1:2
    ^22^5Cq^22 L3@1:2
    ^22a^5Cqb^5Cwc^22 L3@1:3
    ^22^5Cq L2@1:1
    ^22^5C^22 L2@1:1
    ^22a^5C^5C^22 Str(97.92.)@1:1+0-5;End@1:6+5-5
    ^22a^5C^5C^5C^22 L2@1:1
    ^22^5C L2@1:1
    ^22abc L2@1:1
    ^22a^0Ab^22 L2@1:1
    ^22a^0Db^22 L2@1:1
    ^22^5Cq^0Ab^22 L2@1:1
    ^22^5C^0A^5Cq^22 L3@2:1
    ^0A^22^5Cq^22 L3@2:2
    '^5Cx' L3@1:2
    'a L2@1:1
    ' L2@1:1
    ^22 L2@1:1
    ^22a' L2@1:1
    ^22^00^FF^80^22 Str(0.255.128.)@1:1+0-5;End@1:6+5-5
    '^09' Str(9.)@1:1+0-3;End@1:4+3-3
    ^22^0B^0C^22 Str(11.12.)@1:1+0-4;End@1:5+4-4
    ^22^5CX41^22 L3@1:2
    ^22^5CU{41}^22 L3@1:2
    ^22^5C^20^22 L3@1:2
    ^22^5C-^22 L3@1:2
";

const BRACKETS: &str = "
    [[]] Str()@1:1+0-4;End@1:5+4-4
    [[a]] Str(97.)@1:1+0-5;End@1:6+5-5
    [=[a]=] Str(97.)@1:1+0-7;End@1:8+7-7
    [==[a]]b]=]c]==]d Str(97.93.93.98.93.61.93.99.)@1:1+0-16;Name(d)@1:17+16-17;End@1:18+17-17
    [[a]=]b]] Str(97.93.61.93.98.)@1:1+0-9;End@1:10+9-9
    [=[a]]b]=] Str(97.93.93.98.)@1:1+0-10;End@1:11+10-10
    [[a]b]] Str(97.93.98.)@1:1+0-7;End@1:8+7-7
    [[a]]] Str(97.)@1:1+0-5;CloseBracket@1:6+5-6;End@1:7+6-6
    [=[]]=] Str(93.)@1:1+0-7;End@1:8+7-7
    [=[]==]=] Str(93.61.61.)@1:1+0-9;End@1:10+9-9
    [[^0Aa]] Str(97.)@1:1+0-6;End@2:4+6-6
    [[^0D^0Aa]] Str(97.)@1:1+0-7;End@2:4+7-7
    [[^0A^0Da]] Str(97.)@1:1+0-7;End@2:4+7-7
    [[^0Da]] Str(97.)@1:1+0-6;End@2:4+6-6
    [[^0A^0Aa]] Str(10.97.)@1:1+0-7;End@3:4+7-7
    [[^0D^0Da]] Str(10.97.)@1:1+0-7;End@3:4+7-7
    [[a^0Ab^0Dc^0D^0Ad^0A^0De]] Str(97.10.98.10.99.10.100.10.101.)@1:1+0-15;End@5:4+15-15
    [[a^0D^0A^0D^0Ab]] Str(97.10.10.98.)@1:1+0-10;End@3:4+10-10
    [[^5Cn^5Cq]] Str(92.110.92.113.)@1:1+0-8;End@1:9+8-8
    [[^22']] Str(34.39.)@1:1+0-6;End@1:7+6-6
    [[a L2@1:1
    [=[a]] L2@1:1
    [=[a]==] L2@1:1
    [==[a]=] L2@1:1
    [[a] L2@1:1
    [[ L2@1:1
    [=[ L2@1:1
    x^20[[a L2@1:3
    x^0A[=[a]] L2@2:1
    [[^FF^00]] Str(255.0.)@1:1+0-6;End@1:7+6-6
    [[a]][[b]] Str(97.)@1:1+0-5;Str(98.)@1:6+5-10;End@1:11+10-10
    [=[[[x]]]=] Str(91.91.120.93.93.)@1:1+0-11;End@1:12+11-11
    [===[]===] Str()@1:1+0-10;End@1:11+10-10
    [[a^0D]] Str(97.10.)@1:1+0-6;End@2:3+6-6
    [[^0D]] Str()@1:1+0-5;End@2:3+5-5
    [[^0A^0D^0A]] Str(10.)@1:1+0-7;End@3:3+7-7
    [[^20[[^20]] Str(32.91.91.32.)@1:1+0-8;End@1:9+8-8
    [=^0A[ OpenBracket@1:1+0-1;Assign@1:2+1-2;OpenBracket@2:1+3-4;End@2:2+4-4
    [=x[[ L2@1:4
";

const SEPARATORS: &str = "
    ^ End@1:1+0-0
    ^20 End@1:2+1-1
    ^09^0B^0C^20^0A End@2:1+5-5
    a^20b Name(a)@1:1+0-1;Name(b)@1:3+2-3;End@1:4+3-3
    a^0Ab Name(a)@1:1+0-1;Name(b)@2:1+2-3;End@2:2+3-3
    a^0Db Name(a)@1:1+0-1;Name(b)@2:1+2-3;End@2:2+3-3
    a^0D^0Ab Name(a)@1:1+0-1;Name(b)@2:1+3-4;End@2:2+4-4
    a^0A^0Db Name(a)@1:1+0-1;Name(b)@2:1+3-4;End@2:2+4-4
    a^0A^0Ab Name(a)@1:1+0-1;Name(b)@3:1+3-4;End@3:2+4-4
    a^0D^0Db Name(a)@1:1+0-1;Name(b)@3:1+3-4;End@3:2+4-4
    a^0D^0A^0D^0Ab Name(a)@1:1+0-1;Name(b)@3:1+5-6;End@3:2+6-6
    a^0A^0D^0A^0Db Name(a)@1:1+0-1;Name(b)@3:1+5-6;End@3:2+6-6
    a^0D^0A^0Db Name(a)@1:1+0-1;Name(b)@3:1+4-5;End@3:2+5-5
    a^0A^0D^0Ab Name(a)@1:1+0-1;Name(b)@3:1+4-5;End@3:2+5-5
    -- End@1:3+2-2
    --x End@1:4+3-3
    --x^0Ay Name(y)@2:1+4-5;End@2:2+5-5
    --x^0Dy Name(y)@2:1+4-5;End@2:2+5-5
    --x^0D^0Ay Name(y)@2:1+5-6;End@2:2+6-6
    --x^0A^0Dy Name(y)@2:1+5-6;End@2:2+6-6
    a--x^0Ab Name(a)@1:1+0-1;Name(b)@2:1+5-6;End@2:2+6-6
    --[x^0Ay Name(y)@2:1+5-6;End@2:2+6-6
    --[=x]^0Ay Name(y)@2:1+7-8;End@2:2+8-8
    --[==^0Ay Name(y)@2:1+6-7;End@2:2+7-7
    --[[x]]y Name(y)@1:8+7-8;End@1:9+8-8
    --[[x^0A]]y Name(y)@2:3+8-9;End@2:4+9-9
    --[=[x]]^0A]=]y Name(y)@2:4+12-13;End@2:5+13-13
    --[[x L2@1:1
    --[=[x]] L2@1:1
    a^0A^20--[[x L2@2:2
    --[ End@1:4+3-3
    --[[ L2@1:1
    --- End@1:4+3-3
    ----[[x^0Ay Name(y)@2:1+8-9;End@2:2+9-9
    -^20- Minus@1:1+0-1;Minus@1:3+2-3;End@1:4+3-3
    --^20[[x^0Ay Name(y)@2:1+7-8;End@2:2+8-8
    --[[x]]--[[y]]z Name(z)@1:15+14-15;End@1:16+15-15
    --[[x]]^0A--y^0Az Name(z)@3:1+12-13;End@3:2+13-13
    # End@1:2+1-1
    #x End@1:3+2-2
    #x^0Ay Name(y)@2:1+3-4;End@2:2+4-4
    #x^0D^0Ay Name(y)@2:1+4-5;End@2:2+5-5
    #x^0Dy^20z Name(y)@2:1+3-4;Name(z)@2:3+5-6;End@2:4+6-6
    #x^0A#y Hash@2:1+3-4;Name(y)@2:2+4-5;End@2:3+5-5
    ##^0A^0A^20a Name(a)@3:2+5-6;End@3:3+6-6
    ^20#x Hash@1:2+1-2;Name(x)@1:3+2-3;End@1:4+3-3
    #[[^0A]] CloseBracket@2:1+4-5;CloseBracket@2:2+5-6;End@2:3+6-6
    #!/bin/lua^0A--[[^0A]]^0Areturn Return@4:1+19-25;End@4:7+25-25
    a--[[b]]c Name(a)@1:1+0-1;Name(c)@1:9+8-9;End@1:10+9-9
    a--[[^0A^0A]]c^0Ad Name(a)@1:1+0-1;Name(c)@3:3+9-10;Name(d)@4:1+11-12;End@4:2+12-12
";

const PLACES: &str = "
    ! L1@1:1
    ^FF L1@1:1
    ^22 L2@1:1
    'x L2@1:1
    [[ L2@1:1
    --[[ L2@1:1
    ^22^5Cq^22 L3@1:2
    1x L4@1:1
    a! L1@1:2
    a^FF L1@1:2
    a^22 L2@1:2
    a'x L2@1:2
    a[[ L2@1:2
    a--[[ L2@1:2
    a^22^5Cq^22 L3@1:3
    a1x Name(a1x)@1:1+0-3;End@1:4+3-3
    a^20! L1@1:3
    a^20^FF L1@1:3
    a^20^22 L2@1:3
    a^20'x L2@1:3
    a^20[[ L2@1:3
    a^20--[[ L2@1:3
    a^20^22^5Cq^22 L3@1:4
    a^201x L4@1:3
    a^0A! L1@2:1
    a^0A^FF L1@2:1
    a^0A^22 L2@2:1
    a^0A'x L2@2:1
    a^0A[[ L2@2:1
    a^0A--[[ L2@2:1
    a^0A^22^5Cq^22 L3@2:2
    a^0A1x L4@2:1
    a^0D! L1@2:1
    a^0D^FF L1@2:1
    a^0D^22 L2@2:1
    a^0D'x L2@2:1
    a^0D[[ L2@2:1
    a^0D--[[ L2@2:1
    a^0D^22^5Cq^22 L3@2:2
    a^0D1x L4@2:1
    a^0D^0A! L1@2:1
    a^0D^0A^FF L1@2:1
    a^0D^0A^22 L2@2:1
    a^0D^0A'x L2@2:1
    a^0D^0A[[ L2@2:1
    a^0D^0A--[[ L2@2:1
    a^0D^0A^22^5Cq^22 L3@2:2
    a^0D^0A1x L4@2:1
    a^0A^0D! L1@2:1
    a^0A^0D^FF L1@2:1
    a^0A^0D^22 L2@2:1
    a^0A^0D'x L2@2:1
    a^0A^0D[[ L2@2:1
    a^0A^0D--[[ L2@2:1
    a^0A^0D^22^5Cq^22 L3@2:2
    a^0A^0D1x L4@2:1
    a^0A^0A! L1@3:1
    a^0A^0A^FF L1@3:1
    a^0A^0A^22 L2@3:1
    a^0A^0A'x L2@3:1
    a^0A^0A[[ L2@3:1
    a^0A^0A--[[ L2@3:1
    a^0A^0A^22^5Cq^22 L3@3:2
    a^0A^0A1x L4@3:1
    --x^0D^0A! L1@2:1
    --x^0D^0A^FF L1@2:1
    --x^0D^0A^22 L2@2:1
    --x^0D^0A'x L2@2:1
    --x^0D^0A[[ L2@2:1
    --x^0D^0A--[[ L2@2:1
    --x^0D^0A^22^5Cq^22 L3@2:2
    --x^0D^0A1x L4@2:1
    #x^0D^0A! L1@2:1
    #x^0D^0A^FF L1@2:1
    #x^0D^0A^22 L2@2:1
    #x^0D^0A'x L2@2:1
    #x^0D^0A[[ L2@2:1
    #x^0D^0A--[[ L2@2:1
    #x^0D^0A^22^5Cq^22 L3@2:2
    #x^0D^0A1x L4@2:1
    [[^0D^0A]]! L1@2:3
    [[^0D^0A]]^FF L1@2:3
    [[^0D^0A]]^22 L2@2:3
    [[^0D^0A]]'x L2@2:3
    [[^0D^0A]][[ L2@2:3
    [[^0D^0A]]--[[ L2@2:3
    [[^0D^0A]]^22^5Cq^22 L3@2:4
    [[^0D^0A]]1x L4@2:3
    ^22^5C^0D^0A^22^20! L1@2:3
    ^22^5C^0D^0A^22^20^FF L1@2:3
    ^22^5C^0D^0A^22^20^22 L2@2:3
    ^22^5C^0D^0A^22^20'x L2@2:3
    ^22^5C^0D^0A^22^20[[ L2@2:3
    ^22^5C^0D^0A^22^20--[[ L2@2:3
    ^22^5C^0D^0A^22^20^22^5Cq^22 L3@2:4
    ^22^5C^0D^0A^22^201x L4@2:3
";

const BYTES: &str = "
    ^01 L1@1:1
    ^02 L1@1:1
    ^03 L1@1:1
    ^04 L1@1:1
    ^05 L1@1:1
    ^06 L1@1:1
    ^07 L1@1:1
    ^08 L1@1:1
    ^00 L1@1:1
    ^0E L1@1:1
    ^1F L1@1:1
    ! L1@1:1
    $ L1@1:1
    @ L1@1:1
    ^5C L1@1:1
    ` L1@1:1
    ^7F L1@1:1
    ^80 L1@1:1
    ^A0 L1@1:1
    ^FF L1@1:1
    a$b L1@1:2
    a!=b L1@1:2
    @x L1@1:1
    x` L1@1:2
    a^5Cb L1@1:2
    ^80a L1@1:1
";

const LINES: &str = "
    local^20x:^20integer?^20=^201^20--^20one^0Areturn^20x Local@1:1+0-5;Name(x)@1:7+6-7;Colon@1:8+7-8;Name(integer)@1:10+9-16;Question@1:17+16-17;Assign@1:19+18-19;Int(1)@1:21+20-21;Return@2:1+29-35;Name(x)@2:8+36-37;End@2:9+37-37
    for^20i=1,#t^20do^20t[i]=t[i]//2^20end For@1:1+0-3;Name(i)@1:5+4-5;Assign@1:6+5-6;Int(1)@1:7+6-7;Comma@1:8+7-8;Hash@1:9+8-9;Name(t)@1:10+9-10;Do@1:12+11-13;Name(t)@1:15+14-15;OpenBracket@1:16+15-16;Name(i)@1:17+16-17;CloseBracket@1:18+17-18;Assign@1:19+18-19;Name(t)@1:20+19-20;OpenBracket@1:21+20-21;Name(i)@1:22+21-22;CloseBracket@1:23+22-23;DoubleSlash@1:24+23-25;Int(2)@1:26+25-26;End@1:28+27-30;End@1:31+30-30
    function^20f(...)^0D^0A^20^20return^20...^0D^0Aend Function@1:1+0-8;Name(f)@1:10+9-10;OpenParen@1:11+10-11;Dots@1:12+11-14;CloseParen@1:15+14-15;Return@2:3+19-25;Dots@2:10+26-29;End@3:1+31-34;End@3:4+34-34
    a.b:c'd'{e} Name(a)@1:1+0-1;Dot@1:2+1-2;Name(b)@1:3+2-3;Colon@1:4+3-4;Name(c)@1:5+4-5;Str(100.)@1:6+5-8;OpenBrace@1:9+8-9;Name(e)@1:10+9-10;CloseBrace@1:11+10-11;End@1:12+11-11
    if^20a~=b^20and^20not^20c^20then^20goto^20d^20end^20::d:: If@1:1+0-2;Name(a)@1:4+3-4;NotEqual@1:5+4-6;Name(b)@1:7+6-7;And@1:9+8-11;Not@1:13+12-15;Name(c)@1:17+16-17;Then@1:19+18-22;Goto@1:24+23-27;Name(d)@1:29+28-29;End@1:31+30-33;DoubleColon@1:35+34-36;Name(d)@1:37+36-37;DoubleColon@1:38+37-39;End@1:40+39-39
    x^20=^20^22a^22^20..^20'b'^20..^20[[c]] Name(x)@1:1+0-1;Assign@1:3+2-3;Str(97.)@1:5+4-7;Concat@1:9+8-10;Str(98.)@1:12+11-14;Concat@1:16+15-17;Str(99.)@1:19+18-23;End@1:24+23-23
    t^20=^20{[1]=2;3,} Name(t)@1:1+0-1;Assign@1:3+2-3;OpenBrace@1:5+4-5;OpenBracket@1:6+5-6;Int(1)@1:7+6-7;CloseBracket@1:8+7-8;Assign@1:9+8-9;Int(2)@1:10+9-10;Semicolon@1:11+10-11;Int(3)@1:12+11-12;Comma@1:13+12-13;CloseBrace@1:14+13-14;End@1:15+14-14
    type^20A^20=^20(B)^20->^20C^20|^20D? Name(type)@1:1+0-4;Name(A)@1:6+5-6;Assign@1:8+7-8;OpenParen@1:10+9-10;Name(B)@1:11+10-11;CloseParen@1:12+11-12;Arrow@1:14+13-15;Name(C)@1:17+16-17;Pipe@1:19+18-19;Name(D)@1:21+20-21;Question@1:22+21-22;End@1:23+22-22
    -9223372036854775808 L4@1:2
    a<<1>>2&3|4~5 Name(a)@1:1+0-1;ShiftLeft@1:2+1-3;Int(1)@1:4+3-4;ShiftRight@1:5+4-6;Int(2)@1:7+6-7;Ampersand@1:8+7-8;Int(3)@1:9+8-9;Pipe@1:10+9-10;Int(4)@1:11+10-11;Tilde@1:12+11-12;Int(5)@1:13+12-13;End@1:14+13-13
";

// The bytes of a text of the tables.
fn source_of(alloc: Global, word: &str) -> Result<Vec<u8>, AllocError> {
    let mut bytes = Vec::new(alloc);
    let mut high: Option<u8> = None;
    let mut is_coded = false;
    for byte in word.as_bytes() {
        let digit = hex_value(*byte).unwrap_or(0);
        match high {
            Some(value) => {
                bytes.push(value / 16 * 16 + digit)?;
                high = None;
                is_coded = false;
            }
            None => {
                if is_coded {
                    high = Some(digit % 16 * 16);
                } else if *byte == b'^' {
                    is_coded = true;
                } else {
                    bytes.push(*byte)?;
                }
            }
        }
    }
    Ok(bytes)
}

// A string's bytes as numbers.
fn numbers(alloc: Global, bytes: &[u8]) -> Result<String, AllocError> {
    let mut text = String::new(alloc);
    for byte in bytes {
        text.push_str(&format!(in alloc; "{byte}.")?)?;
    }
    Ok(text)
}

fn kind_of(alloc: Global, source: &[u8], token: &Token) -> Result<String, AllocError> {
    match &token.kind {
        TokenKind::Word(word) => format!(in alloc; "{word:?}"),
        TokenKind::Int(value) => format!(in alloc; "Int({value})"),
        TokenKind::Str(bytes) => format!(in alloc; "Str({})", numbers(alloc, bytes.as_slice())?),
        TokenKind::Sym(symbol) => format!(in alloc; "{symbol:?}"),
        TokenKind::End => format!(in alloc; "End"),
        TokenKind::Name => {
            let mut name = String::new(alloc);
            for (i, byte) in source.iter().enumerate() {
                if token.start as usize <= i && i < token.end as usize {
                    name.push(*byte as char)?;
                }
            }
            format!(in alloc; "Name({name})")
        }
    }
}

// What is read of a text, as the tables write it.
fn shown(alloc: Global, source: &[u8]) -> Result<String, AllocError> {
    let mut text = String::new(alloc);
    match lex(alloc, 3, source) {
        Err(Failure::NoMemory) => text.push_str("no memory")?,
        Err(Failure::Refused(refusal)) => {
            let code = refusal.code.name();
            text.push_str(&format!(in alloc;
                "{code}@{}:{}",
                refusal.pos.line, refusal.pos.column
            )?)?;
        }
        Ok(tokens) => {
            for token in tokens.as_slice() {
                if !text.is_empty() {
                    text.push_str(";")?;
                }
                text.push_str(&kind_of(alloc, source, token)?)?;
                text.push_str(&format!(in alloc;
                    "@{}:{}+{}-{}",
                    token.pos.line, token.pos.column, token.start, token.end
                )?)?;
            }
        }
    }
    Ok(text)
}

// Compares each text of a table, and gives their number.
fn agrees(rt: &impl Abort, alloc: Global, table: &str) -> Result<usize, AllocError> {
    let mut words = table.split_whitespace();
    let mut count: usize = 0;
    while let Some(word) = words.next() {
        let source = source_of(alloc, word)?;
        let got = shown(alloc, source.as_slice())?;
        let want = words.next().unwrap_or("nothing");
        assert_eq!(rt; got.as_str(), want, "{word}");
        count = count.saturating_add(1);
    }
    Ok(count)
}

#[test]
fn texts_are_cut_into_tokens(rt: HostRuntime) -> Result<(), Fail> {
    let alloc = rt.alloc();
    let tables = [
        (SYMBOLS, 35),
        (NEIGHBOURS, 68),
        (WORDS, 44),
        (NUMERALS, 44),
        (STRINGS, 71),
        (BRACKETS, 39),
        (SEPARATORS, 50),
        (PLACES, 96),
        (BYTES, 26),
        (LINES, 10),
    ];
    for (table, size) in tables {
        assert_eq!(rt; agrees(&rt, alloc, table)?, size);
    }
    at_most_one_list();
    at_most_one_refusal();
    tokens_or_refusal();
    tokens_are_in_order();
    places_count_line_ends();
    Ok(())
}

#[test]
fn long_files_are_refused(rt: HostRuntime) -> Result<(), Fail> {
    let alloc = rt.alloc();
    let mut text = Vec::new(alloc);
    for _ in 0..1048576 {
        text.push(b' ')?;
    }
    let got = shown(alloc, text.as_slice())?;
    assert_eq!(rt; got.as_str(), "End@1:1048577+1048576-1048576");
    text.push(b'!')?;
    let got = shown(alloc, text.as_slice())?;
    assert_eq!(rt; got.as_str(), "L5@1:1");
    Ok(())
}
