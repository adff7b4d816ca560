//! Statements cut behind each of their tokens: the fault is the end of the file. `luac5.3 -p` told which of them are whole.

use crate::faults::agrees;
use std::test::Fail;
use tl_base::ModuleKind;

// Each line is a text, two spaces, and its answer: `tree`, or place and code.
const CUTS: &str = "\
x  1:2 P1
x,  1:3 P1
x, y  1:5 P1
x, y[  1:6 P1
x, y[1  1:7 P1
x, y[1]  1:8 P1
x, y[1] =  1:10 P1
x, y[1] = 2  tree
x, y[1] = 2,  1:13 P1
x, y[1] = 2, f  tree
x, y[1] = 2, f(  1:16 P1
x, y[1] = 2, f(3  1:17 P1
x, y[1] = 2, f(3)  tree
local  1:6 P1
local a  tree
local a,  1:9 P1
local a, b  tree
local a, b =  1:13 P1
local a, b = 1  tree
local a, b = 1,  1:16 P1
local a, b = 1, nil  tree
f  1:2 P1
f{  1:3 P1
f{1  1:4 P1
f{1,  1:5 P1
f{1, b  1:7 P1
f{1, b =  1:9 P1
f{1, b = 2  1:11 P1
f{1, b = 2;  1:12 P1
f{1, b = 2; [  1:14 P1
f{1, b = 2; [3  1:15 P1
f{1, b = 2; [3]  1:16 P1
f{1, b = 2; [3] =  1:18 P1
f{1, b = 2; [3] = \"c\"  1:22 P1
f{1, b = 2; [3] = \"c\"}  tree
a  1:2 P1
a.  1:3 P1
a.b  1:4 P1
a.b:  1:5 P1
a.b:c  1:6 P1
a.b:c(  1:7 P1
a.b:c(1  1:8 P1
a.b:c(1,  1:9 P1
a.b:c(1, 'd'  1:13 P1
a.b:c(1, 'd')  tree
while  1:6 P1
while a  1:8 P1
while a do  1:11 P1
while a do b  1:13 P1
while a do b(  1:14 P1
while a do b()  1:15 P1
while a do b() end  tree
repeat  1:7 P1
repeat local  1:13 P1
repeat local a  1:15 P1
repeat local a =  1:17 P1
repeat local a = 1  1:19 P1
repeat local a = 1 until  1:25 P1
repeat local a = 1 until a  tree
repeat local a = 1 until a ==  1:30 P1
repeat local a = 1 until a == 2  tree
if  1:3 P1
if a  1:5 P1
if a then  1:10 P1
if a then b  1:12 P1
if a then b(  1:13 P1
if a then b()  1:14 P1
if a then b() elseif  1:21 P1
if a then b() elseif c  1:23 P1
if a then b() elseif c then  1:28 P1
if a then b() elseif c then d  1:30 P1
if a then b() elseif c then d(  1:31 P1
if a then b() elseif c then d()  1:32 P1
if a then b() elseif c then d() else  1:37 P1
if a then b() elseif c then d() else e  1:39 P1
if a then b() elseif c then d() else e(  1:40 P1
if a then b() elseif c then d() else e()  1:41 P1
if a then b() elseif c then d() else e() end  tree
for  1:4 P1
for i  1:6 P1
for i =  1:8 P1
for i = 1  1:10 P1
for i = 1,  1:11 P1
for i = 1, 2  1:13 P1
for i = 1, 2,  1:14 P1
for i = 1, 2, 3  1:16 P1
for i = 1, 2, 3 do  1:19 P1
for i = 1, 2, 3 do f  1:21 P1
for i = 1, 2, 3 do f(  1:22 P1
for i = 1, 2, 3 do f(i  1:23 P1
for i = 1, 2, 3 do f(i)  1:24 P1
for i = 1, 2, 3 do f(i) end  tree
for k  1:6 P1
for k,  1:7 P1
for k, v  1:9 P1
for k, v in  1:12 P1
for k, v in pairs  1:18 P1
for k, v in pairs(  1:19 P1
for k, v in pairs(t  1:20 P1
for k, v in pairs(t)  1:21 P1
for k, v in pairs(t) do  1:24 P1
for k, v in pairs(t) do break  1:30 P1
for k, v in pairs(t) do break end  tree
function  1:9 P1
function a  1:11 P1
function a.  1:12 P1
function a.b  1:13 P1
function a.b:  1:14 P1
function a.b:c  1:15 P1
function a.b:c(  1:16 P1
function a.b:c(d  1:17 P1
function a.b:c(d,  1:18 P1
function a.b:c(d, ...  1:22 P1
function a.b:c(d, ...)  1:23 P1
function a.b:c(d, ...) return  1:30 P1
function a.b:c(d, ...) return d  1:32 P1
function a.b:c(d, ...) return d end  tree
local function  1:15 P1
local function f  1:17 P1
local function f(  1:18 P1
local function f(a  1:19 P1
local function f(a)  1:20 P1
local function f(a) return  1:27 P1
local function f(a) return end  tree
do  1:3 P1
do local  1:9 P1
do local a  1:11 P1
do local a =  1:13 P1
do local a = not  1:17 P1
do local a = not b  1:19 P1
do local a = not b;  1:20 P1
do local a = not b; end  tree
return  tree
return function  1:16 P1
return function(  1:17 P1
return function()  1:18 P1
return function() end  tree
return function() end,  1:23 P1
return function() end, #  1:25 P1
return function() end, #x  tree
return function() end, #x ..  1:29 P1
return function() end, #x .. -  1:31 P1
return function() end, #x .. -y  tree
";

#[test]
fn cut_statements_end_too_early(rt: HostRuntime) -> Result<(), Fail> {
    assert_eq!(rt; agrees(&rt, rt.alloc(), ModuleKind::Untyped, CUTS)?, 143);
    Ok(())
}
