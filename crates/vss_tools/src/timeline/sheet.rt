//! The fixed parts of a drawing.

/// Colours are of a palette that people who see colours otherwise tell apart too (Okabe and Ito). The key says what signs and bars mean.
pub const STYLE: &str = "<style>
text{font-family:'DejaVu Sans Mono',Menlo,Consolas,monospace;font-size:11px;fill:#000}
.title{font-size:16px}.name{font-size:13px}.small,.light,.used,.number{font-size:10px}.number{text-anchor:middle}
.refused,.veto,.lost,.gone,.loss{fill:#b34700;font-weight:bold}.loss{font-size:10px}.cut,.strong,.used{font-weight:bold}
rect.session{fill:#d9d9d9}rect.set{fill:#cc79a7}rect.frozen{fill:#56b4e9}rect.held{fill:#e69f00}rect.image{fill:#009e73}
rect.making{fill:#009e73;fill-opacity:.3;stroke:#009e73;stroke-dasharray:4 3}text.light,text.used{fill:#fff;stroke:#009e73;stroke-width:3px;paint-order:stroke}
rect.even{fill:#f5f5f5}rect.passing{fill:#f0e442;fill-opacity:.45}.grid{stroke:#ddd}.cutline{stroke:#000;stroke-dasharray:5 3}
</style>
<defs>
<circle id='done' r='4.5' fill='#0072b2'/>
<path id='refused' d='M-5-5L5 5M-5 5L5-5' stroke='#d55e00' stroke-width='3'/>
<path id='veto' d='M0-7L7 0L0 7L-7 0Z' fill='#d55e00' stroke='#000'/>
<path id='cut' d='M-6-7L6-7L0 7Z' fill='#000'/>
<path id='time' d='M-5-5H5V5H-5Z' fill='#000'/>
<circle id='lost' r='6' fill='#fff' stroke='#d55e00' stroke-width='2.5'/>
<path id='gone' d='M-6-5H6L0 6Z' fill='#fff' stroke='#d55e00' stroke-width='2.5'/>
<path id='deleted' d='M-5 0H5' stroke='#000' stroke-width='3'/>
<path id='complete' d='M-6 0L-1 5L6-6' fill='none' stroke='#009e73' stroke-width='3'/>
<path id='write' d='M-4-4H4V4H-4Z' fill='#fff' stroke='#0072b2' stroke-width='2'/>
<path id='copy' d='M-4-4H4V4H-4Z' fill='#009e73' stroke='#0072b2' stroke-width='2'/>
<g id='closing'/>
<g id='key'>
<use href='#done' x='8' y='0'/><text x='18' y='4'>move</text>
<use href='#refused' x='68' y='0'/><text x='80' y='4'>refused or failed</text>
<use href='#veto' x='214' y='0'/><text x='226' y='4'>veto</text>
<use href='#lost' x='274' y='0'/><text x='286' y='4'>lost answer</text>
<use href='#cut' x='380' y='0'/><text x='392' y='4'>cut</text>
<use href='#complete' x='434' y='0'/><text x='446' y='4'>set complete</text>
<use href='#gone' x='548' y='0'/><text x='560' y='4'>evicted</text>
<use href='#deleted' x='630' y='0'/><text x='642' y='4'>deleted</text>
<use href='#time' x='712' y='0'/><text x='724' y='4'>time passes</text>
<rect class='session' x='2' y='16' width='20' height='12'/><text x='28' y='26'>session</text>
<rect class='set' x='98' y='16' width='20' height='12'/><text x='124' y='26'>set in progress</text>
<rect class='frozen' x='242' y='16' width='20' height='12'/><text x='268' y='26'>frozen</text>
<rect class='held' x='328' y='16' width='20' height='12'/><text x='354' y='26'>held</text>
<rect class='making' x='400' y='16' width='20' height='12'/><text x='426' y='26'>image being made</text>
<rect class='image' x='550' y='16' width='20' height='12'/><text x='576' y='26'>image</text>
<use href='#write' x='638' y='22'/><text x='650' y='26'>write</text>
<use href='#copy' x='708' y='22'/><text x='720' y='26'>write with a copy for the image</text>
</g>
</defs>
<rect width='100%' height='100%' fill='#fff'/>
";
